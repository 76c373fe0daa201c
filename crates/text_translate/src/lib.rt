// The program table of a LanQ text (Paper 1). `translate` asks 30, 31 and 32 in this order and, where none refuses and
// the buffer is long enough, writes the table. Its contract is two equations, for texts of any bytes and length and
// buffers of any length: the answer and the buffer are those of the definitions (specs/Translate.antt). Nothing is
// asked of the caller. That every table given out passes questions 1 to 5 is proved (proofs/Given.antt).
#![tactic(auto)]

ghost use Rattle.std.specs.Prelude.{◌≡◌, ◌≤◌, true, length};
ghost use Rattle.text_parse.specs.Tokens.{tokens_of};
ghost use Rattle.text_parse.specs.Grammar.{program_of};
ghost use Rattle.text_parse.specs.Text.{text_of};
ghost use Rattle.text_program.specs.ProgramCode.{is_read};
ghost use Rattle.text_limits.specs.LimitsCode.{WellNamed};
ghost use Rattle.text_translate.specs.declared.TextRefusal.TheVariants.{Grammar, Limits};
ghost use Rattle.text_translate.specs.Translate.{number_of, place_of, words_of, answer_numbers, answer_for, buffer_after};

use text_limits::limits::limits;
use text_limits::method::LimitPassed;
use text_methods::index::index_methods;
use text_methods::methods::Methods;
use text_names::refusal::name_fault;
use text_program::program::grammar_place;
use text_table::whole::write_table;
use text_types::place::GrammarError;

// Refusals 30, 31 and 32, each with the byte index that is its place.
#[derive(Clone, Copy, Debug, PartialEq, Eq)]
pub enum TextRefusal {
    Grammar(usize),
    Names(usize),
    Limits(usize),
}

impl TextRefusal {
    pub fn number(self) -> u32
        ensures { result ≡ number_of self }
    {
        match self {
            TextRefusal::Grammar(_) => 30,
            TextRefusal::Names(_) => 31,
            TextRefusal::Limits(_) => 32,
        }
    }

    pub fn place(self) -> usize
        ensures { result ≡ place_of self }
    {
        match self {
            TextRefusal::Grammar(at) | TextRefusal::Names(at) | TextRefusal::Limits(at) => at,
        }
    }
}

impl From<GrammarError> for TextRefusal {
    ghost from_gives = { λ e r. r ≡ Grammar e.at };

    fn from(left: GrammarError) -> TextRefusal {
        TextRefusal::Grammar(left.at)
    }
}

impl From<LimitPassed> for TextRefusal {
    ghost from_gives = { λ e r. r ≡ Limits e.at };

    fn from(passed: LimitPassed) -> TextRefusal {
        TextRefusal::Limits(passed.at)
    }
}

// The words of the table that is given out, or those that the buffer is too short for.
#[derive(Clone, Copy, Debug, PartialEq, Eq)]
pub enum Translation {
    Table(usize),
    Short(usize),
}

impl Translation {
    // How many words the table has, whether it is given out or not.
    pub fn words(self) -> usize
        ensures { result ≡ words_of self }
    {
        match self {
            Translation::Table(n) | Translation::Short(n) => n,
        }
    }
}

// A text without a fault of names, with lent arrays to work in. No word is written before the room is asked for.
fn table_with(
    methods: &Methods<'_>,
    pending: &mut [usize],
    code: &mut [usize],
    lengths: &mut [u16],
    rows: &mut [u16],
    kept: &mut [usize],
    table: &mut [u16],
) -> Result<Translation, TextRefusal>
    requires { WellNamed methods.now.text.now × (12288 ≤ length pending.old) × (8192 ≤ length code.old)
        × (32 ≤ length lengths.old) × (length rows.old ≡ 576) × (8192 ≤ length kept.old) }
    ensures { (answer_numbers result ≡ answer_for (length table.old) (text_of methods.now.text.now))
        × (table.new ≡ buffer_after table.old (text_of methods.now.text.now)) }
{
    let size = limits(methods, pending, code, lengths, rows, kept)?;
    let words = 2 + 20 * size.methods + 2 * size.instructions;
    if table.len() < words {
        return Ok(Translation::Short(words));
    }
    let n = write_table(
        methods,
        size.methods,
        size.instructions,
        lengths,
        rows,
        kept,
        table,
    );
    Ok(Translation::Table(n))
}

// Room for one method's code, for what waits while it is written, and for the lengths, rows and code of all methods,
// which are kept so that the text is not gone over again for its table.
fn table_of(methods: &Methods<'_>, table: &mut [u16]) -> Result<Translation, TextRefusal>
    requires { WellNamed methods.now.text.now }
    ensures { (answer_numbers result ≡ answer_for (length table.old) (text_of methods.now.text.now))
        × (table.new ≡ buffer_after table.old (text_of methods.now.text.now)) }
{
    let mut pending = [0usize; 12288];
    let mut code = [0usize; 8192];
    let mut lengths = [0u16; 32];
    let mut rows = [0u16; 576];
    let mut kept = [0usize; 8192];
    table_with(
        methods,
        &mut pending,
        &mut code,
        &mut lengths,
        &mut rows,
        &mut kept,
        table,
    )
}

// A text in the grammar. Its methods are written down first, so that no call makes the text be read again.
fn names_then_table(
    text: &[u8],
    index: &mut [usize],
    table: &mut [u16],
) -> Result<Translation, TextRefusal>
    requires { (129 ≤ length index.old) × (is_read (program_of (tokens_of text.now)) ≡ true) }
    ensures { (answer_numbers result ≡ answer_for (length table.old) (text_of text.now))
        × (table.new ≡ buffer_after table.old (text_of text.now)) }
{
    index_methods(text, index);
    let methods = Methods { text, index };
    match name_fault(&methods) {
        Some(at) => Err(TextRefusal::Names(at)),
        None => table_of(&methods, table),
    }
}

// "30 when the text leaves the grammar or the nesting, 31 when a name is undeclared .., 32 when the table .. passes a
// limit of questions 1 to 5: all before question 1, in this order". The buffer is untouched unless a table is given
// out.
pub fn translate(text: &[u8], table: &mut [u16]) -> Result<Translation, TextRefusal>
    ensures { (answer_numbers result ≡ answer_for (length table.old) (text_of text.now))
        × (table.new ≡ buffer_after table.old (text_of text.now)) }
{
    grammar_place(text)?;
    let mut index = [0usize; 129];
    names_then_table(text, &mut index, table)
}
