//! How much one call reads and shows at most, so that little in a file can't become much.

ghost use Rattle.std.specs.Prelude.{◌≡◌, ◌+◌, false, IsTrue};

/// How many records of fields a call reads in any file, and how many fields and gaps of classes
/// within classes it shows.
const LEAST: usize = 262_144;

/// For how many bytes of the table it reads and shows one more.
const BYTES: usize = 2;

/// What a call may yet read or show.
#[derive(Clone, Copy)]
pub struct Allowance {
    left: usize,

    /// Whether something was left out.
    is_spent: bool,
}

impl Allowance {
    /// Returns what a call may read or show of a table with so many bytes. In a file of a compiler
    /// each list of fields is that of one class, or of a few, and a field takes at least eight
    /// bytes.
    pub fn of_table(bytes: usize) -> Self {
        Allowance {
            left: (bytes / BYTES).saturating_add(LEAST),
            is_spent: false,
        }
    }

    /// Returns how much is left.
    pub fn left(&self) -> usize
        ensures { result ≡ self.now.left }
    {
        self.left
    }

    /// Returns whether something is left out: more was asked for than was left, or so it was noted.
    pub fn is_spent(&self) -> bool
        ensures { result ≡ self.now.is_spent }
    {
        self.is_spent
    }

    /// Notes whether something is left out for which enough may be left.
    pub fn note_cut(&mut self, is_cut: bool)
        ensures left { self.new.left ≡ self.old.left }
        ensures noted { IsTrue is_cut → IsTrue self.new.is_spent }
        ensures kept { IsTrue self.old.is_spent → IsTrue self.new.is_spent }
    {
        self.is_spent = self.is_spent || is_cut;
    }

    /// Takes so much if it is left, and returns whether it was. If it isn't, nothing is left any
    /// more.
    pub fn take(&mut self, count: usize) -> bool
        ensures taken { IsTrue result → self.new.left + count ≡ self.old.left }
        ensures refused { result ≡ false → self.new.left ≡ 0 }
    {
        if count > self.left {
            self.left = 0;
            self.is_spent = true;
            return false;
        }
        self.left -= count;
        true
    }
}
