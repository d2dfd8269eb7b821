//! What holds of the calls of each flash. The functions do nothing: each is there for what it ensures.
ghost use Rattle.std.specs.Prelude.{◌≡◌, ◌⊎◌, ◌<◌, ◌≤◌, ◌+◌, ◌-◌, ◌/◌, ◌^◌, ℕ, suc, Bool, true, false, List, [], ◌∷◌, ◌++◌, length, map, All, Option, Some, IsSomeAnd, Result};
ghost use Rattle.std.specs.Result.{is_err};
ghost use Rattle.tx_types.specs.Config.{IsShape, slots_of};
ghost use Rattle.tx_types.specs.declared.config.Shape.{Shape};
ghost use Rattle.flash_model.specs.declared.flash.Broken.{Broken};
ghost use Rattle.flash_model.specs.declared.outcome.Arm.{Arm};
ghost use Rattle.flash_model.specs.declared.outcome.Outcome.{Outcome};
ghost use Rattle.flash_model.specs.Flash.{FlashState, Told, Contents, slot_at, counted_by, counted_times, IsImage, IsSteady};
ghost use Rattle.flash_model.specs.Operations.{Operation, Load, fire, program_of, Moment, starts_in, CanDo, WorksIn, die_of, image_left, left_each, after, Torn};
ghost use Rattle.flash_model.specs.Moves.{Does, IsLone, Moves, Fires, FlashMoves, FlashMovesTogether, StayOff};
ghost use Rattle.flash_model.specs.Calls.{Carries, Operates};
ghost use Rattle.flash_model.specs.Retiring.{CarriesRetiring};
ghost use Rattle.flash_model.specs.Firing.{no_loads, loads_in, with_load, AreFreeFrom};

/// A call that was not broken, and then another, keep together what each keeps, and move the flash together.
pub fn calls_compose()
    ensures keeps { (a b c : FlashState) (broken : Bool) →
        Carries a b false → Carries b c broken → Carries a c broken }
    ensures moves { (a b c : FlashState) (broken : Bool) → Carries a b false →
        FlashMoves a b false → FlashMoves b c broken → FlashMoves a c broken }
{}

/// A cut comes at the one of its number, of all that are started, and not before.
pub fn cuts_come_due()
    ensures comes { (old new : FlashState) (before : Told) (arm : Arm) → old.told ≡ Some before →
        before.cut ≡ Some arm → 1 ≤ arm.count → old.started + arm.count < 2 ^ 64 → old.live ≡ true →
        Carries old new true → new.live ≡ false → new.started ≡ old.started + arm.count }
    ensures waits { (old new : FlashState) (before : Told) (arm : Arm) → old.told ≡ Some before →
        before.cut ≡ Some arm → 1 ≤ arm.count → old.started + arm.count < 2 ^ 64 → old.live ≡ true →
        Carries old new false → (new.started < old.started + arm.count)
        × IsSomeAnd new.told (λ after. after.cut
        ≡ Some (record arm { count = arm.count - (new.started - old.started) })) }
{}

/// A program or an erase moves the flash by one operation, done or broken, and so does a fire, by all its programs.
pub fn operations_move()
    ensures lone { (old new : FlashState) (o : Operation) (result : Result (Unit {0}) Broken) →
        IsLone o → CanDo old.shape old.image o → Operates old new o result →
        FlashMoves old new (is_err result) }
    ensures fired { (old new : FlashState) (loads : List Load) (result : Result (Unit {0}) Broken) →
        CanDo old.shape old.image (fire loads) → Operates old new (fire loads) result →
        FlashMovesTogether old new (is_err result) }
{}

/// What was done tells how much is counted as started: each program and each erase, the one that was broken too, and
/// each fire with something loaded.
pub fn operations_are_counted()
    ensures done { (shape : Shape) (old new : Moment) (list : List Operation) → Does shape old list new →
        new.started ≡ counted_times (starts_in list) old.started }
    ensures lone { (list : List Operation) → All IsLone list → starts_in list ≡ length list }
    ensures moves { (shape : Shape) (old new : Moment) (broken : Bool) → (moves : Moves shape old broken new) →
        (new.started ≡ counted_times (length moves.done) old.started)
        ⊎ ((broken ≡ true) × (new.started ≡ counted_times (length moves.done + 1) old.started)) }
{}

/// An image stays one, whatever is done and however it is broken, and operations that stay off a block leave
/// its slots.
pub fn images_stay()
    ensures whole { (shape : Shape) (old new : Moment) (broken : Bool) →
        IsImage shape old.image → Moves shape old broken new → IsImage shape new.image }
    ensures fired { (shape : Shape) (old new : Moment) (broken : Bool) →
        IsImage shape old.image → Fires shape old broken new → IsImage shape new.image }
    ensures elsewhere { (shape : Shape) (old new : Moment) (list : List Operation) (slot : ℕ) →
        IsImage shape old.image → Does shape old list new →
        StayOff shape (slot / shape.pages_per_block) list →
        slot_at new.image slot ≡ slot_at old.image slot }
    ensures torn_elsewhere { (shape : Shape) (old new : Moment) (o : Operation) (slot : ℕ) →
        IsImage shape old.image → CanDo shape old.image o → Torn shape old o new →
        (WorksIn shape o (slot / shape.pages_per_block) → ⊥) →
        slot_at new.image slot ≡ slot_at old.image slot }
{}

/// No call is broken on a steady flash, which stays steady.
pub fn steady_stays()
    ensures { (old new : FlashState) (broken : Bool) →
        IsSteady old → Carries old new broken → (broken ≡ false) × IsSteady new }
{}

/// A call that may retire a block keeps all that another does but for what is told of retired blocks. It keeps
/// the same together with calls before it and behind it, and no such call is broken on a steady flash, which
/// stays steady.
pub fn retiring_composes()
    ensures more { (old new : FlashState) (broken : Bool) →
        Carries old new broken → CarriesRetiring old new broken }
    ensures behind { (a b c : FlashState) (broken : Bool) →
        Carries a b false → CarriesRetiring b c broken → CarriesRetiring a c broken }
    ensures before { (a b c : FlashState) (broken : Bool) →
        CarriesRetiring a b false → Carries b c broken → CarriesRetiring a c broken }
    ensures steady { (old new : FlashState) (broken : Bool) →
        IsSteady old → CarriesRetiring old new broken → (broken ≡ false) × IsSteady new }
{}

/// Programs that are started together leave what they leave one after another, each done or broken by itself. They are
/// counted as started once, and one after another each by itself.
pub fn fires_are_programs()
    ensures done { (shape : Shape) (old : Moment) (load : Load) (loads : List Load) →
        CanDo shape old.image (fire (load ∷ loads)) →
        Does shape old (map program_of (load ∷ loads)) (record (after shape old (fire (load ∷ loads))) {
          started = counted_by (length (load ∷ loads)) old.started;
        }) }
    ensures first { (shape : Shape) (image : List Contents) (load : Load) (loads : List Load) →
        CanDo shape image (fire (load ∷ loads)) → CanDo shape image (program_of load) }
    ensures rest { (shape : Shape) (image : List Contents) (load : Load) (loads : List Load) (how : Outcome) →
        CanDo shape image (fire (load ∷ loads)) →
        CanDo shape (image_left shape image (program_of load) how) (fire loads) }
    ensures left { (shape : Shape) (image : List Contents) (load : Load) (loads : List Load)
        (how : Outcome) (hows : List Outcome) → left_each image (load ∷ loads) (how ∷ hows)
        ≡ left_each (image_left shape image (program_of load) how) loads hows }
{}

/// Programs that are loaded die after die, from empty registers on, stand in the order in which they were loaded. Each
/// slot lies in a die.
pub fn loads_come_in_order()
    ensures none { (shape : Shape) → (loads_in (no_loads shape) ≡ []) × AreFreeFrom (no_loads shape) 0 }
    ensures more { (shape : Shape) (registers : List (Option Load)) (load : Load) →
        die_of shape load.at < length registers → AreFreeFrom registers (die_of shape load.at) →
        loads_in (with_load shape registers load) ≡ loads_in registers ++ load ∷ [] }
    ensures behind { (shape : Shape) (registers : List (Option Load)) (load : Load) →
        AreFreeFrom registers (die_of shape load.at) →
        AreFreeFrom (with_load shape registers load) (suc (die_of shape load.at)) }
    ensures within { (shape : Shape) (at : ℕ) →
        IsShape shape → at < slots_of shape → die_of shape at < shape.dies }
{}
