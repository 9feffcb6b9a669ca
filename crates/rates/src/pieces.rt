ghost use Rattle.std.specs.Prelude.{◌≡◌, ℕ, ◌<◌, List, Bool};
ghost use Rattle.whole.specs.Marks.{check_from, pieces, AsMarks};

// Pieces of one size, one after another: the dates of a row, the rows of a table.

// Ok where each of so many pieces passes its check, else what the first that does not pass answers.
// A `for` with `?` says it in two lines: of `try_for_each` the law of a first piece that fails would be said of a run of the iterator.
pub(crate) fn each<F: Fn(usize) -> Result<(), usize>>(count: usize, check: F) -> Result<(), usize>
    requires { (k : ℕ) → k < count → F.pre check k }
    ensures { (at size : ℕ) (marks : ℕ → List Bool) → AsMarks (F.post check) at size count marks → result ≡ check_from at (pieces marks 0 count) }
{
    for k in 0..count {
        check(k)?;
    }
    Ok(())
}
