// A text with the index of its methods, by which a method is found by its name.
ghost use Rattle.std.specs.Prelude.{◌≡◌, ◌+◌, ◌*◌, ◌≤◌, ◌<◌, length, get_or};
ghost use Rattle.std.proofs.Math.Seq.{slice};
ghost use Rattle.lists.specs.Lists.{same};
ghost use Rattle.text.specs.Tree.{ascii};
ghost use Rattle.text_methods.specs.RowsCode.{rows_of, row_index, FirstNamed};
ghost use Rattle.text_methods.specs.MethodSays.{MethodOf, MethodCount};
ghost use Rattle.text_methods.specs.IndexCode.{entry_name, Indexed};

use crate::find::{MethodAt, NoSuchMethod, find_row};
use text_tokens::bytes::is_word;

// The text and its index.
#[derive(Clone, Copy)]
pub struct Methods<'a> {
    pub text: &'a [u8],
    pub index: &'a [usize],
    pub ghost indexed: { Indexed text.now index.now },
}

impl<'a> Methods<'a> {
    // Entry i has this name.
    fn is_entry(&self, i: usize, word: &[u8]) -> bool
        requires { i < 32 }
        ensures { result ≡ same (entry_name self.now.text.now self.now.index.now i) word.now }
    {
        is_word(
            self.text,
            self.index[4 * i + 1],
            self.index[4 * i + 2],
            word,
        )
    }

    // The method of entry i.
    fn entry(&self, i: usize) -> MethodAt
        requires { i < 32 }
        ensures { result ≡ record {
          index = i;
          at = get_or self.now.index.now (4 * i + 3) 0;
          params = get_or self.now.index.now (4 * i + 4) 0;
        } }
    {
        MethodAt {
            index: i,
            at: self.index[4 * i + 3],
            params: self.index[4 * i + 4],
        }
    }

    // The first method with this name, of any text: an entry of the index, or where there are more methods than entries
    // what is found in the text.
    pub fn find_word(&self, word: &[u8]) -> Result<MethodAt, NoSuchMethod>
        ensures { FirstNamed self.now.text.now word.now result }
    {
        let count = self.index[0];
        for i in 0..count.min(32) {
            if self.is_entry(i, word) {
                return Ok(self.entry(i));
            }
        }
        if 32 < count {
            return find_row(self.text, word);
        }
        Err(NoSuchMethod { methods: count })
    }

    // The first method with the name that stands at start up to end.
    pub fn find_indexed(&self, start: usize, end: usize) -> Result<MethodAt, NoSuchMethod>
        requires { (start ≤ end) × (end ≤ length self.now.text.now) }
        ensures { FirstNamed self.now.text.now (slice start end self.now.text.now) result }
    {
        self.find_word(&self.text[start..end])
    }

    // How many methods stand before it; where there is none, how many there are.
    pub fn index_of(&self, start: usize, end: usize) -> usize
        requires { (start ≤ end) × (end ≤ length self.now.text.now) }
        ensures { result ≡ row_index (slice start end self.now.text.now) (rows_of self.now.text.now) }
    {
        match self.find_indexed(start, end) {
            Ok(m) => m.index,
            Err(n) => n.methods,
        }
    }

    // The first method with that name, in a text of the grammar.
    pub fn method_indexed(&self, start: usize, end: usize) -> Result<MethodAt, NoSuchMethod>
        requires { (start ≤ end) × (end ≤ length self.now.text.now) }
        ensures { MethodOf self.now.text.now (slice start end self.now.text.now) result }
    {
        self.find_indexed(start, end)
    }

    // The first method called main, in a text of the grammar.
    pub fn find_main(&self) -> Result<MethodAt, NoSuchMethod>
        ensures { MethodOf self.now.text.now (ascii "main") result }
    {
        self.find_word(b"main")
    }

    // How many methods there are, and so in the tree of a text of the grammar.
    pub fn method_count(&self) -> usize
        ensures { (result ≡ length (rows_of self.now.text.now)) × MethodCount self.now.text.now result }
    {
        self.index[0]
    }
}
