//! Laws of steps that no other hart sees.
ghost use Rattle.std.specs.Prelude.{◌≡◌, ◌≢◌, ℕ, ◌%◌, Bool, true};
ghost use Rattle.std.specs.List.{All};
ghost use Rattle.mem_store.specs.Memory.{Memory};
ghost use Rattle.hart_step.specs.Hart.{HartValue};
ghost use Rattle.hart_step.specs.Laws.{Keeps, IsAligned};
ghost use Rattle.machine.specs.World.{World, step};
ghost use Rattle.machine.specs.declared.choice.Choice.{Choice};
ghost use Rattle.bank_laws.specs.Banks.{WordBytes};
ghost use Rattle.bank_laws.specs.Words.{bytes_at};
ghost use Rattle.explore_sites.specs.Own.{Owners, unrefused, is_alone, is_clear, alone_in, clear_in, clear_over};

/// A step that no other hart sees, and another hart's step that stays clear of its words, lead to
/// the same world in either order.
pub fn steps_alone_commute()
    ensures { (owners : Owners) (w : World) (h : ℕ) (c : Choice) → All IsAligned w.harts → h ≢ c.hart
        → alone_in owners w h ≡ true → clear_in owners w c.hart ≡ true
        → step (step w (unrefused h)) c ≡ step (step w c) (unrefused h) }
{}

/// Whether other harts see a hart's next step doesn't depend on their steps.
pub fn alone_stays()
    ensures { (owners : Owners) (w : World) (h : ℕ) (c : Choice) → h ≢ c.hart
        → alone_in owners (step w c) h ≡ alone_in owners w h }
{}

/// Whether a hart's next step is clear doesn't depend on a step that this hart doesn't see.
pub fn clear_stays()
    ensures { (owners : Owners) (w : World) (h k : ℕ) → All IsAligned w.harts → k ≢ h
        → alone_in owners w h ≡ true
        → clear_in owners (step w (unrefused h)) k ≡ clear_in owners w k }
{}

/// A step that no other hart sees is the same with a refusal.
pub fn alone_takes_no_refusal()
    ensures { (owners : Owners) (w : World) (h : ℕ) → alone_in owners w h ≡ true
        → (r : Bool) → step w (record { hart = h; refuse = r }) ≡ step w (unrefused h) }
{}

/// A step that no other hart sees is clear.
pub fn alone_is_clear()
    ensures { (owners : Owners) (w : World) (h : ℕ) → alone_in owners w h ≡ true
        → clear_in owners w h ≡ true }
{}

/// A hart's image tells whether other harts see its next step, whatever was stored.
pub fn alone_by_the_image()
    ensures { (owners : Owners) (m n : Memory) (h : ℕ) (v : HartValue) → Keeps m n
        → is_alone owners n h v ≡ is_alone owners m h v }
{}

/// A hart's image, with the words of a memory in place of its own, tells whether the hart's next
/// step over that memory is clear.
pub fn clear_by_the_image()
    ensures { (owners : Owners) (m n : Memory) (h : ℕ) (v : HartValue) (values : ℕ → WordBytes)
        → Keeps m n → IsAligned v → ((x : ℕ) → x % 4 ≡ 0 → values x ≡ bytes_at n.bytes x)
        → is_clear owners n h v ≡ clear_over owners m h v values }
{}
