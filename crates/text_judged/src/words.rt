// A method's code as words, each call with a number of its own: that of its instruction.
ghost use Rattle.std.specs.Prelude.{◌≡◌, cond, ◌*◌, ◌≤◌, ◌<◌, length};
ghost use Rattle.text_judge.specs.RowsCode.{calls};
ghost use Rattle.text_rows.specs.Header.{as_word};
ghost use Rattle.text_judged.specs.JudgedCode.{Numbered};

use text_judge::instruction::calling;

// The largest word where a number is larger.
fn as_word(n: usize) -> u16
    ensures { result ≡ as_word n }
{
    if n < 65535 {
        return n as u16;
    }
    65535
}

fn argument_word(op: usize, a: usize, i: usize) -> u16
    requires { i < 4096 }
    ensures { result ≡ cond (calls op) i (as_word a) }
{
    if calling(op) {
        return i as u16;
    }
    as_word(a)
}

pub fn number_calls(code: &[usize], long: usize, words: &mut [u16])
    requires { (2 * long ≤ length code.now) × (2 * long ≤ length words.old) × (long ≤ 4096) }
    ensures { Numbered code.now words.new long }
{
    for i in 0..long {
        words[2 * i] = as_word(code[2 * i]);
        words[2 * i + 1] = argument_word(code[2 * i], code[2 * i + 1], i);
    }
}
