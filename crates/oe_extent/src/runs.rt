//! Runs of bytes, copied to an offset and read from the front.
ghost use Rattle.std.specs.Prelude.{◌≡◌, ◌≤◌, ◌+◌, length};
ghost use Rattle.std.specs.Option.{option_map};
ghost use Rattle.oe_extent.specs.Images.{Writes, run_at};

/// Writes a run of bytes from offset `start` on, and answers the offset behind it.
#[inline]
pub fn write_run(bytes: &mut [u8], start: usize, run: &[u8]) -> usize
    requires { start + length run.now ≤ length bytes.old }
    ensures { Writes bytes.old start run.now bytes.new result }
{
    let end = start + run.len();
    bytes[start..end].copy_from_slice(run);
    end
}

/// Gives the first `count` bytes, and those behind them; `None` where there are fewer.
#[inline]
pub fn read_run(bytes: &[u8], count: usize) -> Option<(&[u8], &[u8])>
    ensures { option_map (λ x. (x.0.now, x.1.now)) result ≡ run_at count bytes.now }
{
    if bytes.len() < count {
        return None;
    }
    Some((&bytes[..count], &bytes[count..]))
}
