//! What has one image as bytes, which a writer puts at an offset.
ghost use Rattle.std.specs.Prelude.{◌≡◌, ◌≤◌, ◌+◌, ℕ, List, length};
ghost use Rattle.oe_extent.specs.Images.{Writes};

/// What has one image as bytes, which it writes at its offset, so that no buffer lies between.
pub trait Written {
    ghost image: { Self → List ℕ };

    /// Tells how many bytes its image has.
    fn size(&self) -> usize
        ensures { result ≡ length (image self.now) };

    /// Writes its image from offset `start` on, and answers the offset behind it.
    fn write(&self, bytes: &mut [u8], start: usize) -> usize
        requires { start + length (image self.now) ≤ length bytes.old }
        ensures { Writes bytes.old start (image self.now) bytes.new result };
}
