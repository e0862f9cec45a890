// Which alerts were met: a mark for each number. Only these three functions know the form of the marks.
ghost use Rattle.std.specs.Prelude.{◌≡◌, ◌<◌, length};
ghost use Rattle.alerts_search.specs.Promises.Marks.{marked, Marks, Unmarked, most_marks};

pub fn is_marked(met: &[u16], i: usize) -> bool
    requires { (length met.now ≡ most_marks) × (i < 256) }
    ensures { result ≡ marked met.now i }
{
    met[i] != 0
}

pub fn mark(met: &mut [u16], i: usize)
    requires { (length met.old ≡ most_marks) × (i < 256) }
    ensures { Marks met.old met.new i }
{
    met[i] = 1;
}

pub fn unmark(met: &mut [u16])
    requires { length met.old ≡ most_marks }
    ensures { Unmarked met.new }
{
    slices::fill(met, 0);
}
