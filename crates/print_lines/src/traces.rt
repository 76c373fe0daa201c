// The lines of a trace as text.
ghost use Rattle.std.specs.Prelude.{◌≡◌, ◌+◌, ◌*◌, ◌≤◌, ◌<◌, length, take};
ghost use Rattle.trace.specs.Trace.{lines_of};
ghost use Rattle.print_format.specs.Format.{lines_text};
ghost use Rattle.lists.specs.Lists.{put_from};

use super::writing::put_line;
use trace::read::line_at;

// The first n lines of a trace, where there are n. A line has at most 126 bytes.
pub fn put_lines(out: &mut [u8], at: usize, trace: &[u16], n: u32) -> usize
    requires { (n ≤ length (lines_of trace.now)) × (at + 126 * n < 4294967296) }
    ensures { (out.new ≡ put_from out.old at (lines_text (take n (lines_of trace.now))))
        × (result ≡ at + length (lines_text (take n (lines_of trace.now)))) }
{
    let mut end = at;
    for i in 0..n {
        end = put_line(out, end, line_at(trace, i as usize));
    }
    end
}
