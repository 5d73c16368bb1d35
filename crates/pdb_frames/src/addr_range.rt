//! Records that describe a range of addresses.

ghost use Rattle.std.specs.Prelude.{◌≡◌};
ghost use Rattle.pdb_frames.specs.Span.{Span, covers};

/// A record that describes a range of addresses, in bytes from the base of the image before a tool
/// rearranged it.
pub trait AddrRange {
    // Where it begins, and how many bytes it has.
    ghost span: { Self → Span };

    /// Returns the first address.
    fn start(&self) -> u32
        ensures { result ≡ (span self.now).start };

    /// Returns the size of the range in bytes. It may reach past 0xffffffff.
    fn size(&self) -> u32
        ensures { result ≡ (span self.now).size };

    /// Returns whether an address lies in the range: not before the start, and less than the size
    /// after it. An empty range contains no address.
    fn contains(&self, address: u32) -> bool
        ensures { result ≡ covers (span self.now) address }
    {
        let start = self.start();
        start <= address && address - start < self.size()
    }
}
