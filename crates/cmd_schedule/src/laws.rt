//! Laws of written seeds.

ghost use Rattle.std.specs.Prelude.{ℕ, List, length};
ghost use Rattle.image.specs.Image.{ImageValue};
ghost use Rattle.machine.specs.Start.{IsStartable, started};
ghost use Rattle.sched_text.specs.Printing.{choices_text};
ghost use Rattle.sched_draw.specs.Schedules.{drawn_choices};
ghost use Rattle.campaign_runs.specs.declared.campaign.Campaign.{Campaign};
ghost use Rattle.cmd_schedule.specs.Seeds.{EndsAsTold};

/// A run under the text of a seed's choices, however they are drawn, ends as the campaign that
/// draws them reports for the seed.
pub fn written_seeds_end_as_told()
    ensures { (campaign : Campaign) (image : ImageValue) (inputs : List ℕ) (seed : ℕ) → IsStartable inputs
        → EndsAsTold campaign image inputs seed
        (choices_text (drawn_choices campaign.draw (started image inputs) (length inputs) campaign.steps seed)) }
{}
