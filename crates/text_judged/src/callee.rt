// The row of a method by the place of a name that calls it, with the index of the text's methods.
ghost use Rattle.std.specs.Prelude.{◌≤◌, length};
ghost use Rattle.text_methods.specs.IndexCode.{Indexed};
ghost use Rattle.text_judged.specs.JudgedCode.{HeaderAt};

use text_methods::methods::Methods;
use text_rows::header::header_row;
use text_tokens::next::next_token;

pub fn callee_row(text: &[u8], methods: &[usize], place: usize) -> [u16; 18]
    requires { (place ≤ length text.now) × Indexed text.now methods.now }
    ensures { HeaderAt text.now place result }
{
    let t = next_token(text, place);
    let methods = Methods {
        text,
        index: methods,
    };
    match methods.method_indexed(t.start, t.end) {
        Ok(m) => header_row(text, m.at),
        Err(_) => [0; 18],
    }
}
