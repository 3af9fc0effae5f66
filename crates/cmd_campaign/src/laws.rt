//! Laws of campaigns.

ghost use Rattle.std.specs.Prelude.{◌≡◌, ◌^◌, ◌<◌, ℕ, List, [], ◌∷◌, None, Some};
ghost use Rattle.std.specs.List.{All};
ghost use Rattle.image.specs.Image.{ImageValue};
ghost use Rattle.cmd_run.specs.Certified.{IsCertified};
ghost use Rattle.outcome.specs.declared.expect.Exit.{Exit};
ghost use Rattle.outcome.specs.declared.expect.Exit.TheVariants.{May};
ghost use Rattle.program_open.specs.declared.program.ProgramForm.TheVariants.{Elf};
ghost use Rattle.cmd_form.specs.declared.form.Form.{Form};
ghost use Rattle.campaign_runs.specs.Properties.{no_properties};
ghost use Rattle.campaign_runs.specs.Runs.{SeedEnding, all_endings};
ghost use Rattle.campaign_runs.specs.Tally.{seeds_in, tally_of};
ghost use Rattle.campaign_runs.specs.declared.campaign.Campaign.{Campaign};
ghost use Rattle.campaign_runs.specs.declared.campaign.Report.TheVariants.{Failures};
ghost use Rattle.run_hangs.specs.declared.asked.Hangs.TheVariants.{Unasked};
ghost use Rattle.run_hangs.specs.declared.status.RunStatus.TheVariants.{Of};
ghost use Rattle.cmd_campaign.specs.Answers.{campaign_answer};
ghost use Rattle.cmd_campaign.specs.Kept.{AnswersKeptLines, AnswersNothing};
ghost use Rattle.cmd_campaign.specs.Status.{campaign_end, campaign_status, ending_status, first_failure, finished_of, run_status};
ghost use Rattle.cmd_campaign.specs.Until.{first_failing, ended_at, IsFirstFailing, NoneFailed};

/// The counts of a summary's rows add up to the number of seeds.
pub fn all_seeds_are_counted()
    ensures { (campaign : Campaign) (image : ImageValue) (inputs : List ℕ)
        → seeds_in (tally_of (all_endings campaign image inputs)) ≡ campaign.count }
{}

/// A campaign of one run has the status of that run, but for hangs.
pub fn campaign_of_one_run_has_its_status()
    ensures { (exit : Exit) (end : SeedEnding)
        → campaign_status exit (end ∷ []) ≡ ending_status exit end.ending }
{}

/// For a file that is an object, run by as many harts as it is for under its kind's rule, `campaign
/// --failures` without properties of one's own and without `--hangs` reports no run, and its status
/// is 0.
pub fn failures_of_an_object_are_none()
    ensures { (campaign : Campaign) (inputs program : List ℕ) → campaign.report ≡ Failures → campaign.expect.exit ≡ May
        → campaign.properties ≡ no_properties → campaign.hangs ≡ Unasked
        → All (λ x. x < 2 ^ 32) inputs → IsCertified Elf program inputs campaign.expect.rule
        → AnswersNothing (campaign_answer campaign inputs program) }
{}

/// For a file that is an object, run by as many harts as it is for under its kind's rule, each line
/// of `campaign` without properties of one's own and without `--hangs` says `kept`, whatever it
/// reports.
pub fn lines_of_an_object_say_kept()
    ensures { (campaign : Campaign) (inputs program : List ℕ) → campaign.properties ≡ no_properties → campaign.hangs ≡ Unasked
        → All (λ x. x < 2 ^ 32) inputs
        → IsCertified Elf program inputs campaign.expect.rule
        → AnswersKeptLines campaign.form campaign.report (campaign_answer campaign inputs program) }
{}

/// The first run that has failed has failed, and no run before it has; if there is none, no run has
/// failed. Its seed is the first failure of a campaign.
pub fn no_run_fails_before_the_first()
    ensures first { (exit : Exit) (ends : List SeedEnding) (end : SeedEnding)
        → first_failing exit ends ≡ Some end → IsFirstFailing exit ends end }
    ensures none { (exit : Exit) (ends : List SeedEnding)
        → first_failing exit ends ≡ None → NoneFailed exit ends }
    ensures seed { (form : Form) (exit : Exit) (seeds : ℕ) (ends : List SeedEnding)
        → (ended_at form exit seeds (first_failing exit ends)).1.first_failure
        ≡ first_failure exit ends }
{}

/// Where it isn't decided whether runs hang, no run has failed by a hang: the status is 4 if a rule
/// or a property is broken in some run, else 3 if some run has failed, else 0.
pub fn unasked_hangs_are_no_failure()
    ensures { (campaign : Campaign) (image : ImageValue) (inputs : List ℕ) (exit : Exit) → campaign.hangs ≡ Unasked
        → run_status (campaign_end exit (all_endings campaign image inputs))
        ≡ Of (finished_of exit (all_endings campaign image inputs)).status }
{}
