//! Laws of the definitions. Each function has an empty body, and its contract is the law: a call
//! brings it into the caller's proof.
//!
//! The first speak of lists of deliveries only: what each delivery adds, by how it relates to those
//! before it. Those from `stands_as_kept` on speak of what is kept after a list of deliveries,
//! wherever it is kept: `Runs` goes by them, and so can tables.

ghost use Rattle.std.specs.Prelude.{◌≡◌, ◌≢◌, ◌↔◌, ℕ, ◌+◌, ◌≤◌, List, [], ◌∷◌, ◌++◌, None, IsTrue, IsSome, AllPairs, filter};
ghost use Rattle.partner_core.specs.{declared.runs.Standing.TheVariants.{Known, Other, Early, Next}, Deliveries.{Delivery, first_text, run}, Machine.Taking};
ghost use Rattle.partner_core.specs.{Order.{is_of, numbers_above, order, reply_of}, Standings.{is_same_text, standing_at}, Cascade.{TakesNone, TakesOneMore}};
ghost use Rattle.partner_core.specs.Growth.{AddsNothing, AddsText, AddsRun, EndsRun, IsNextNumber, IsAllOf, HasSameFirsts, ComesToSame};
ghost use Rattle.partner_core.specs.{Keeping.{StandsAsKept, KeepsOn, KeepsOneMore, KeepsRun, AnswersAsKept}, ByPlace.{RulesByPlace, GoesOnByNew}};

use crate::Machine;

/// Two texts are the same if they have the same bytes.
pub fn same_text()
    ensures { (s t : List ℕ) → IsTrue (is_same_text s t) ↔ (s ≡ t) }
{}

/// Run: each number up to it is used, the number after it is free, and so each free number is
/// beyond it.
pub fn unbroken_run()
    ensures used { (ds : List Delivery) (p k : ℕ) →
        1 ≤ k → k ≤ run ds p → IsSome (first_text ds p k) }
    ensures free_after { (ds : List Delivery) (p : ℕ) → first_text ds p (run ds p + 1) ≡ None }
    ensures free_beyond { (ds : List Delivery) (p k : ℕ) →
        1 ≤ k → first_text ds p k ≡ None → run ds p + 1 ≤ k }
{}

/// The same text again adds nothing.
pub fn known<M: Machine>()
    ensures { (opening : M) (ds : List Delivery) (d : Delivery) →
        standing_at ds d ≡ Known → AddsNothing M.taken opening ds d }
{}

/// Another text under a used number adds nothing.
pub fn other<M: Machine>()
    ensures { (opening : M) (ds : List Delivery) (d : Delivery) →
        standing_at ds d ≡ Other → AddsNothing M.taken opening ds d }
{}

/// A text before its time adds itself to First, and nothing else.
pub fn early<M: Machine>()
    ensures { (opening : M) (ds : List Delivery) (d : Delivery) →
        standing_at ds d ≡ Early → AddsText M.taken opening ds d }
{}

/// The text that is next has the number after the run, and adds itself to First, and to Order what
/// it makes next: the numbers up to the last of its run.
pub fn next<M: Machine>()
    ensures number { (ds : List Delivery) (d : Delivery) →
        1 ≤ d.number → standing_at ds d ≡ Next → IsNextNumber ds d }
    ensures ends { (ds : List Delivery) (d : Delivery) →
        IsNextNumber ds d → EndsRun ds d (run (ds ++ d ∷ []) d.partner) }
    ensures adds { (opening : M) (ds : List Delivery) (d : Delivery) (last : ℕ) →
        EndsRun ds d last → AddsRun M.taken opening ds d last }
{}

/// Order has no pair of a partner and a number twice, and of each partner it has the run, in number
/// order.
pub fn once_each()
    ensures once { (ds : List Delivery) → AllPairs (λ x y. x ≢ y) (order ds) }
    ensures in_number_order { (ds : List Delivery) (p : ℕ) →
        filter (is_of p) (order ds) ≡ numbers_above p 0 (run ds p) }
{}

/// A number has a reply exactly if it is within the run.
pub fn replied<M: Machine>()
    ensures { (opening : M) (ds : List Delivery) (p k : ℕ) →
        IsSome (reply_of M.taken opening ds p k) ↔ ((1 ≤ k) × (k ≤ run ds p)) }
{}

/// Texts of one partner come to the same in any order and repeated at will, if each
/// number's first text is the same.
pub fn one_partner<M: Machine>()
    ensures { (opening : M) (p : ℕ) (ds es : List Delivery) →
        IsAllOf p ds → IsAllOf p es → HasSameFirsts p ds es → ComesToSame M.taken opening ds es }
{}

/// What is kept decides whether a delivery is known, other, early or next.
pub fn stands_as_kept<M: Machine>()
    ensures { StandsAsKept M.taken }
{}

/// What is kept stays right if a delivery adds nothing.
pub fn keeps_on<M: Machine>()
    ensures { KeepsOn M.taken }
{}

/// What is kept with one text more is right if the delivery adds its text.
pub fn keeps_one_more<M: Machine>()
    ensures { KeepsOneMore M.taken }
{}

/// What is kept after the next text and its cascade is right.
pub fn keeps_run<M: Machine>()
    ensures { KeepsRun M.taken }
{}

/// A cascade, taken one text after another.
pub fn cascade<M: Machine>()
    ensures begins { TakesNone M.taken }
    ensures goes_on { TakesOneMore M.taken }
{}

/// What is kept before a delivery and after it gives the answer.
pub fn answers_as_kept<M: Machine>()
    ensures { AnswersAsKept M.taken }
{}

/// Rules that change at a place of the list: what the fold by place comes to is the old rules over
/// what became next before the change, and then the new rules over what became next after it.
pub fn rules_by_place<M: Machine>()
    ensures { (number_of : List ℕ → ℕ) (old new : Taking M) → RulesByPlace number_of old new }
{}

/// Whoever takes only by the new rules, from what is kept after the change on, keeps what the fold
/// by place wants.
pub fn goes_on_by_new<M: Machine>()
    ensures { (number_of : List ℕ → ℕ) (old new : Taking M) → GoesOnByNew number_of old new }
{}
