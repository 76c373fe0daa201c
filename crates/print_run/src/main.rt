// The printing program: reads a file from standard input and prints the text of the run that it gives.
#![tactic(auto)]

ghost use Rattle.std.specs.Prelude.{IfSome, OnOk};
ghost use Rattle.std.specs.Io.KnownBytes.{Appends};
ghost use Rattle.print_format.specs.Format.{printed};

use print_text::print_text;
use std::alloc::Global;
use std::io;
use std::io::{Read, Write};

fn main(rt: HostRuntime) -> io::Result<()> {
    print_file(rt.alloc(), rt.reader(), &mut io::writer(&rt))
}

// One byte more than a file may have is read, which shows a longer one as too long. Every text fits the buffer.
fn print_file<R: Read + Drop, W: Write>(alloc: Global, reader: R, writer: &mut W) -> io::Result<()>
    ensures { OnOk result (IfSome (R.remaining reader)
        (λ file. Appends (W.contents writer.old) (W.contents writer.new) (printed file))) }
{
    let mut file = Vec::new(alloc);
    reader.take(65537).read_to_end(&mut file)?;
    let mut out = vec![in alloc; 0u8; 524288]?;
    let end = print_text(&file, &mut out);
    writer.write_all(&out[..end])
}
