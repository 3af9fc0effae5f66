//! Laws of endings and tallies.

ghost use Rattle.std.specs.Prelude.{◌≡◌, ◌++◌, ◌↔◌, ℕ, List, IsTrue, length};
ghost use Rattle.cmd_form.specs.declared.form.Form.{Form};
ghost use Rattle.machine.specs.World.{World, run};
ghost use Rattle.machine.specs.declared.choice.Choice.{Choice};
ghost use Rattle.outcome.specs.Expect.{judged};
ghost use Rattle.run_hangs.specs.declared.asked.Hangs.TheVariants.{Unasked};
ghost use Rattle.campaign_runs.specs.Ending.{EndingValue, ending_with, same_ending};
ghost use Rattle.campaign_runs.specs.Properties.{judged_over};
ghost use Rattle.campaign_runs.specs.Words.{ending_seeing, no_named_words, words_seen};
ghost use Rattle.campaign_runs.specs.Runs.{SeedEnding, ending_after};
ghost use Rattle.campaign_runs.specs.declared.campaign.Campaign.{Campaign};
ghost use Rattle.campaign_runs.specs.declared.campaign.Report.{Report};
ghost use Rattle.campaign_runs.specs.declared.campaign.Report.TheVariants.{Outcomes};
ghost use Rattle.campaign_runs.specs.declared.words.Words.{Words};
ghost use Rattle.campaign_runs.specs.Tally.{tally_count, seeds_in, seeds_with, tally_of, tally_onto};

/// Endings compare equal exactly if they are the same.
pub fn same_endings_are_equal()
    ensures { (a b : EndingValue) → IsTrue (same_ending a b) ↔ (a ≡ b) }
{}

/// The row of each ending has the number of seeds with it and the first of them, an ending of no
/// seed has no row, and each seed is counted once.
pub fn each_ending_is_counted()
    ensures rows { (all : List SeedEnding) (ending : EndingValue)
        → tally_count ending (tally_of all) ≡ seeds_with ending all }
    ensures sum { (all : List SeedEnding) → seeds_in (tally_of all) ≡ length all }
{}

/// Counting seeds block by block gives the tally of all of them.
pub fn blocks_are_counted_together()
    ensures { (before block : List SeedEnding)
        → tally_onto (tally_of before) block ≡ tally_of (before ++ block) }
{}

/// Where it isn't asked whether runs hang, an ending has what is judged, what the harts left and
/// the words of memory that the report names, and no more.
pub fn unasked_hangs_add_nothing()
    ensures { (campaign : Campaign) (world : World) (inputs : List ℕ) (choices : List Choice) → campaign.hangs ≡ Unasked
        → ending_after world campaign inputs choices ≡ ending_seeing campaign.form
        (words_seen campaign.report campaign.words (run world choices))
        (ending_with campaign.form campaign.report
        (judged campaign.expect.rule inputs choices (run world choices).harts)
        (judged_over campaign.properties world choices) (run world choices).harts) }
{}

/// Where no word of memory is named, or the report isn't one of outcomes, an ending gets none.
pub fn unnamed_words_add_nothing()
    ensures unnamed { (form : Form) (report : Report) (world : World) (ending : EndingValue)
        → ending_seeing form (words_seen report no_named_words world) ending ≡ ending }
    ensures others { (form : Form) (report : Report) (words : Words) (world : World)
        (ending : EndingValue) → (report ≡ Outcomes → ⊥)
        → ending_seeing form (words_seen report words world) ending ≡ ending }
{}
