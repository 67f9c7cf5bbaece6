//! Lists without spare room: a proof has many, and each was grown while its end was not known.
ghost use Rattle.std.specs.Prelude.{◌≡◌};

use foundation::Sequence;

/// The list of these elements, in no more memory than they take. It can't be refused.
pub(super) fn fit_list<T: Drop>(mut items: Vec<T>) -> Sequence<T>
    ensures { result ≡ items.items }
{
    items.shrink_to_fit();
    Sequence::from_vec(items)
}
