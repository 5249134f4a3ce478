//! What holds for every history of a book, stated as the contract of a function without a body.
ghost use Rattle.session.specs.Places.{EntriesHavePlaces};

/// A history that is a run has a state at the place of each entry; the contracts of `Book::close` and `Book::give_up` say that theirs is a run.
/// The entries before an entry lead from the opening state to its state, the pool answers its request there with its reply, and the entries after
/// it lead on to the end. Where the entry opened a view, whatever the view reads or sends is what the pool answers in this very state to a Read
/// or a Send of the view's name (`View::read`, `View::send`), however much later the view is used.
///
/// The law requires that each number of the opening state names one block, which is so in every pool's state: `laws::lineage_laws` says it of a
/// new pool, and the contract of the last `Pool::apply` or `Pool::prepare` of any other.
pub fn history_laws()
    ensures places { EntriesHavePlaces }
{}
