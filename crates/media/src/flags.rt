// Sample flags: the 32-bit field of a box, built one field after another, and the five-bit form of the wire.
// Letters: `v` a number, `f` flags.
ghost use Rattle.std.specs.Prelude.{◌≡◌, ◌%◌};
ghost use Rattle.media.specs.Flags.{placed, non_sync, depends_on, is_depended_on, wide_of, five_of, only};

#[derive(Clone, Copy)]
pub struct SampleFlags(pub u32);

impl SampleFlags {
    // Flags with no field set.
    pub fn none() -> Self
        ensures { result.0 ≡ 0 }
    {
        SampleFlags(0)
    }

    // The flags with non_sync as the lowest bit of v.
    pub fn non_sync(self, v: u32) -> Self
        ensures { result.0 ≡ placed non_sync v self.0 }
    {
        let x = self.0;
        SampleFlags(x / 0x2_0000 * 0x2_0000 + v % 2 * 0x1_0000 + x % 0x1_0000)
    }

    // The flags with depends_on as the two lowest bits of v.
    pub fn depends_on(self, v: u32) -> Self
        ensures { result.0 ≡ placed depends_on v self.0 }
    {
        let x = self.0;
        SampleFlags(x / 0x400_0000 * 0x400_0000 + v % 4 * 0x100_0000 + x % 0x100_0000)
    }

    // The flags with is_depended_on as the two lowest bits of v.
    pub fn is_depended_on(self, v: u32) -> Self
        ensures { result.0 ≡ placed is_depended_on v self.0 }
    {
        let x = self.0;
        SampleFlags(x / 0x100_0000 * 0x100_0000 + v % 4 * 0x40_0000 + x % 0x40_0000)
    }

    // The flags of a five-bit form, of which the five lowest bits count.
    pub fn of_five(f: u64) -> Self
        ensures { result.0 ≡ wide_of f }
    {
        let a = (f % 2) as u32;
        let b = (f / 2 % 4) as u32;
        let c = (f / 8 % 4) as u32;
        SampleFlags::none()
            .non_sync(a)
            .depends_on(b)
            .is_depended_on(c)
    }

    // The five-bit form of the three fields, whatever other bits are set.
    pub fn five(self) -> u64
        ensures { result ≡ five_of self.0 }
    {
        let x = self.0 as u64;
        x / 0x1_0000 % 2 + 2 * (x / 0x100_0000 % 4) + 8 * (x / 0x40_0000 % 4)
    }

    // Whether no bit outside the three fields is set.
    pub fn is_plain(self) -> bool
        ensures { result ≡ only self.0 }
    {
        let x = self.0;
        let f = self.five();
        let SampleFlags(y) = SampleFlags::of_five(f);
        x == y
    }
}
