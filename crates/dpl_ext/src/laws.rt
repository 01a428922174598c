// What the words of the contracts mean, said without them.
ghost use Rattle.std.specs.Prelude.{◌≡◌, ℕ, ◌+◌, ◌≤◌, ◌<◌, ◌↔◌, List, [], ◌∷◌, ◌++◌, length, Some, None, Ok, Err};
ghost use Rattle.dpl_ext.specs.Device.{AnswersOpen, AppendsFront, CountsFaults, CountsGiven, Gave, HasCause, Rose, RoseBy, Seen, Texts, first_text, last_count};
ghost use Rattle.dpl_ext.specs.Reading.{IsWhole, Refuses, TookFront};
ghost use Rattle.dpl_ext.specs.declared.opening.OpenEnd.{OpenEnd};
ghost use Rattle.dpl_ext.specs.declared.opening.OpenEnd.TheVariants.{Failed, NoMemory};
ghost use Rattle.dpl_ext.specs.declared.reading.ReadEnd.TheVariants as end;

/// A count below its end rose exactly where it is greater, and one at its end exactly where it stays there. A count
/// rose by a number for which it has room exactly where it is greater by that number.
pub fn counts_rise()
    ensures below { (before now : ℕ) → before < last_count → Rose before now ↔ (before < now) }
    ensures ended { (before now : ℕ) → last_count ≤ before →
        Rose before now ↔ (last_count ≤ now) }
    ensures exactly { (n before now : ℕ) → before + n ≤ last_count →
        RoseBy n before now ↔ (now ≡ before + n) }
{}

/// A call that answers leaves the count of faults, and one that fails raises it.
pub fn faults_are_counted()
    ensures ok { (before now n : ℕ) → HasCause {T = ℕ} {E = OpenEnd} before now (Ok n) ↔ (now ≡ before) }
    ensures failed { (before now : ℕ) (e : OpenEnd) → before < last_count →
        HasCause {T = ℕ} {E = OpenEnd} before now (Err e) ↔ (before < now) }
    ensures one { (before now : ℕ) (e : OpenEnd) → before < last_count →
        CountsFaults {T = ℕ} {E = OpenEnd} before now (Err e) ↔ (now ≡ before + 1) }
    ensures none { (before now n : ℕ) →
        CountsFaults {T = ℕ} {E = OpenEnd} before now (Ok n) ↔ (now ≡ before) }
{}

/// A read that gives some bytes raises the count of given bytes by their number, and one that fails leaves it.
pub fn bytes_are_counted()
    ensures ok { (before now n : ℕ) → before + n ≤ last_count →
        CountsGiven {E = OpenEnd} before now (Ok n) ↔ (now ≡ before + n) }
    ensures failed { (before now : ℕ) (e : OpenEnd) →
        CountsGiven {E = OpenEnd} before now (Err e) ↔ (now ≡ before) }
{}

/// Bytes that a source gave, which tells what is left: what was left is these bytes and what is left now.
pub fn given_bytes_are_the_front()
    ensures { (before now : Seen) (left left_now bytes : List ℕ) → before.left ≡ Some left →
        now.left ≡ Some left_now → before.given + length bytes ≤ last_count →
        Gave before now bytes ↔ ((left ≡ bytes ++ left_now) ×
        (now.given ≡ before.given + length bytes) × (before.faults ≤ now.faults) ×
        (now.asked ≡ before.asked)) }
{}

/// All that was left was read of a source that tells it, where no read failed and no more was left than the limit.
pub fn whole_is_what_was_left()
    ensures { (before now : Seen) (left bytes : List ℕ) (limit : ℕ) → before.left ≡ Some left →
        IsWhole before now bytes limit → (bytes ≡ left) × (now.left ≡ Some []) ×
        (length left ≤ limit) × (now.faults ≡ before.faults) }
{}

/// Each refusal to read has its cause: a call failed, or one byte more than the limit was read.
pub fn refusals_have_causes()
    ensures fault { (before now : Seen) (limit : ℕ) → before.faults < last_count →
        Refuses before now limit end.Fault → before.faults < now.faults }
    ensures too_long { (before now : Seen) (limit : ℕ) → before.given + limit < last_count →
        Refuses before now limit end.TooLong → (now.given ≡ before.given + limit + 1) ×
        (now.faults ≡ before.faults) }
{}

/// What a taker got is followed by the front of what was left, of a source that tells it.
pub fn takers_get_the_front()
    ensures { (before now : Seen) (left got got_now : List ℕ) (limit : ℕ) →
        before.left ≡ Some left → TookFront before now limit got got_now
        → (front : List ℕ) × (rest : List ℕ) × (left ≡ front ++ rest) ×
        (got_now ≡ got ++ front) × (length front ≤ limit) }
{}

/// A front of some bytes was taken by a sink that tells what it took: this stands behind what it had.
pub fn fronts_are_taken()
    ensures { (taken taken_now bytes : List ℕ) →
        AppendsFront (Some taken) (Some taken_now) bytes ↔ ((front : List ℕ) × (rest : List ℕ)
        × (bytes ≡ front ++ rest) × (taken_now ≡ taken ++ front)) }
{}

/// The first text of a name is looked for from the front.
pub fn the_first_text_counts()
    ensures none { (name : List ℕ) → first_text name [] ≡ None }
    ensures here { (name text : List ℕ) (others : Texts) →
        first_text name ((name, text) ∷ others) ≡ Some text }
    ensures behind { (name other text : List ℕ) (others : Texts) → ¬ (other ≡ name) →
        first_text name ((other, text) ∷ others) ≡ first_text name others }
{}

/// A shelf that tells its texts opens the first one of a name, and no text is left open where it does not.
pub fn opens_have_answers()
    ensures opened { (before now : Seen) (texts : Texts) (name : List ℕ) (done : Unit {0}) →
        AnswersOpen before now (Some texts) name (Ok done) ↔
        ((now.asked ≡ before.asked ++ name ∷ []) × (now.faults ≡ before.faults) ×
        (now.given ≡ before.given) ×
        ((text : List ℕ) × (first_text name texts ≡ Some text) × (now.left ≡ Some text))) }
    ensures failed { (before now : Seen) (texts : Texts) (name : List ℕ) →
        before.faults < last_count →
        AnswersOpen before now (Some texts) name (Err Failed) ↔
        ((now.asked ≡ before.asked ++ name ∷ []) × (before.faults < now.faults) ×
        (now.given ≡ before.given) × (now.left ≡ Some [])) }
    ensures no_memory { (before now : Seen) (texts : Texts) (name : List ℕ) →
        AnswersOpen before now (Some texts) name (Err NoMemory) ↔
        ((now.asked ≡ before.asked) × (now.faults ≡ before.faults) ×
        (now.given ≡ before.given) × (now.left ≡ Some [])) }
{}
