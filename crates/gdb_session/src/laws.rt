//! A law: chosen harts are there.
ghost use Rattle.std.specs.Prelude.{◌<◌};
ghost use Rattle.gdb_requests.specs.declared.request.Plain.{Plain};
ghost use Rattle.gdb_session.specs.Answers.{after_answer};
ghost use Rattle.gdb_session.specs.Harts.{ChosenAreThere, hart_read};
ghost use Rattle.gdb_session.specs.Talk.{TalkValue, hart_count};

/// If the chosen harts and that of the last stop are there, so are they after an answer, and so is
/// the hart that is read.
pub fn chosen_harts_are_there()
    ensures stay { (t : TalkValue) (plain : Plain) → ChosenAreThere t
        → ChosenAreThere (after_answer t plain) }
    ensures read { (t : TalkValue) → ChosenAreThere t → hart_read t < hart_count t }
{}
