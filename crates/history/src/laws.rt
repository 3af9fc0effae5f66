//! Laws of history texts.

ghost use Rattle.std.specs.Prelude.{◌≡◌, ℕ, ◌^◌, ◌<◌, ◌↔◌, List};
ghost use Rattle.std.specs.List.{All};
ghost use Rattle.std.specs.declared.result.Result.TheVariants.{Ok, Err};
ghost use Rattle.text_items.specs.Spelling.{SpellsOrSpoils};
ghost use Rattle.history.specs.declared.entry.Entry.{Entry};
ghost use Rattle.history.specs.declared.history_text.HistoryFault.{HistoryFault};
ghost use Rattle.history.specs.Grammar.{SpellsHistory, SpoilsHistory};
ghost use Rattle.history.specs.Printing.{history_text};
ghost use Rattle.history.specs.Reading.{entries_of};

/// Reading gives the history that a text spells, and none if it spells none.
pub fn history_is_read_as_spelled()
    ensures { (harts : ℕ) (text : List ℕ) (entries : List Entry) → harts < 2 ^ 32
        → (entries_of harts text ≡ Ok entries) ↔ SpellsHistory harts text entries }
{}

/// Reading refuses a text with the fault of the item that spoils it, and no other text.
pub fn history_is_refused_as_spoiled()
    ensures { (harts : ℕ) (text : List ℕ) (fault : HistoryFault) → harts < 2 ^ 32
        → (entries_of harts text ≡ Err fault) ↔ SpoilsHistory harts 0 text fault }
{}

/// Each text spells one history, or one fault spoils it, and never both.
pub fn history_texts_are_decided()
    ensures { (harts : ℕ) (text : List ℕ) → harts < 2 ^ 32
        → SpellsOrSpoils (SpellsHistory harts text) (SpoilsHistory harts 0 text) }
{}

/// No text spells two histories.
pub fn one_history()
    ensures { (harts : ℕ) (text : List ℕ) (one other : List Entry) → harts < 2 ^ 32
        → SpellsHistory harts text one → SpellsHistory harts text other → one ≡ other }
{}

/// Reading what was printed gives the history, if each of its entries names one of the harts and
/// its number of local steps fits in 32 bits.
pub fn printed_history_is_read()
    ensures { (harts : ℕ) (entries : List Entry) → harts < 2 ^ 32
        → All (λ e. e.hart < harts) entries → All (λ e. e.local < 2 ^ 32) entries
        → entries_of harts (history_text entries) ≡ Ok entries }
{}
