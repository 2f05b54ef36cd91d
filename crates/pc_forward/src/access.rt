//! Accesses of elements, and what they tell of one.
ghost use Rattle.std.specs.Prelude.{◌≡◌, ◌↔◌, true, MatchOption};
ghost use Rattle.pc_linear.specs.Form.{Form};
ghost use Rattle.pc_linear.specs.Equality.{AlwaysEqual};
ghost use Rattle.pc_forward.specs.Forwardable.{Meets, Decides, HasElement};

use pc_linear::LinForm;

/// How an element is accessed.
#[derive(Clone, Copy, Debug, PartialEq, Eq)]
pub(crate) enum AccessKind {
    Load,
    Store,
}

/// A load or store on a trail: the array, the form of the index, and that of the value that was loaded or stored.
#[derive(Clone, Copy, Debug, PartialEq, Eq)]
pub(crate) struct Access {
    pub kind: AccessKind,
    pub array: u8,
    pub index: LinForm,
    pub value: LinForm,
}

/// The value of an element, where accesses tell it: looked for from the latest back.
pub(crate) fn element(accesses: &[Access], array: u8, index: &LinForm) -> Option<LinForm>
    ensures { MatchOption result ((value : Form) → HasElement accesses.now array index.now value → ⊥) (λ value. HasElement accesses.now array index.now value) }
{
    let mut place = accesses.len();
    while place > 0 {
        place -= 1;
        let access = &accesses[place];
        if decides(access, array, index) {
            return told(access, index);
        }
    }
    None
}

/// Whether an access decides what is known of an element.
fn decides(access: &Access, array: u8, index: &LinForm) -> bool
    ensures { (result ≡ true) ↔ Decides array index.now access.now }
{
    access.array == array && meets(access, index)
}

/// Whether the index of an access is always equal, or of a store not never equal.
fn meets(access: &Access, index: &LinForm) -> bool
    ensures { (result ≡ true) ↔ Meets access.now.kind access.now.index index.now }
{
    match access.kind {
        AccessKind::Load => access.index.always_equal(index),
        AccessKind::Store => !access.index.never_equal(index),
    }
}

/// The value of an access, where its index is always equal.
fn told(access: &Access, index: &LinForm) -> Option<LinForm>
    ensures { MatchOption result (AlwaysEqual access.now.index index.now → ⊥) (λ value. (value ≡ access.now.value) × AlwaysEqual access.now.index index.now) }
{
    if access.index.always_equal(index) {
        Some(access.value)
    } else {
        None
    }
}
