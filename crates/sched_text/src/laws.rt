//! Laws of choice texts.

ghost use Rattle.std.specs.Prelude.{◌≡◌, ℕ, ◌^◌, ◌<◌, ◌↔◌, List};
ghost use Rattle.std.specs.List.{All};
ghost use Rattle.std.specs.declared.result.Result.TheVariants.{Ok, Err};
ghost use Rattle.machine.specs.declared.choice.Choice.{Choice};
ghost use Rattle.text_items.specs.Spelling.{SpellsOrSpoils};
ghost use Rattle.sched_text.specs.declared.choice_text.ChoiceFault.{ChoiceFault};
ghost use Rattle.sched_text.specs.Grammar.{SpellsChoices, SpoilsChoices};
ghost use Rattle.sched_text.specs.Printing.{choices_text, runs_text};
ghost use Rattle.sched_text.specs.Reading.{choices_read};
ghost use Rattle.sched_text.specs.Runs.{longest_runs, AreLongest};

/// Reading gives the list that a text spells, and no list if it spells none.
pub fn read_as_spelled()
    ensures { (harts : ℕ) (text : List ℕ) (choices : List Choice) → harts < 2 ^ 32
        → (choices_read harts text ≡ Ok choices) ↔ SpellsChoices harts text choices }
{}

/// Reading refuses a text with the fault of the item that spoils it, and no other text.
pub fn refused_as_spoiled()
    ensures { (harts : ℕ) (text : List ℕ) (fault : ChoiceFault) → harts < 2 ^ 32
        → (choices_read harts text ≡ Err fault) ↔ SpoilsChoices harts 0 text fault }
{}

/// Each text spells one list, or one fault spoils it, and never both.
pub fn choice_texts_are_decided()
    ensures { (harts : ℕ) (text : List ℕ) → harts < 2 ^ 32
        → SpellsOrSpoils (SpellsChoices harts text) (SpoilsChoices harts 0 text) }
{}

/// No text spells two lists.
pub fn one_list()
    ensures { (harts : ℕ) (text : List ℕ) (one other : List Choice) → harts < 2 ^ 32
        → SpellsChoices harts text one → SpellsChoices harts text other → one ≡ other }
{}

/// Reading what was printed gives the list, if each of its choices names one of the harts.
pub fn printed_is_read()
    ensures { (harts : ℕ) (choices : List Choice) → harts < 2 ^ 32
        → All (λ c. c.hart < harts) choices → choices_read harts (choices_text choices) ≡ Ok choices }
{}

/// Reading what was printed by runs gives the list, if each of its choices names one of the harts.
pub fn printed_runs_are_read()
    ensures { (harts : ℕ) (choices : List Choice) → harts < 2 ^ 32
        → All (λ c. c.hart < harts) choices → choices_read harts (runs_text choices) ≡ Ok choices }
{}

/// The longest runs of a list stand for it, and none could take in the first choice of the next.
pub fn longest_runs_are_maximal()
    ensures { (choices : List Choice) → AreLongest choices (longest_runs choices) }
{}
