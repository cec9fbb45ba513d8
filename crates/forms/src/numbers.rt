// Reading on in a content: letters, and the numerals behind them.

ghost use Rattle.std.specs.Prelude.{◌≡◌, ℕ, ◌+◌, ◌^◌, ◌≤◌, List, length, Option, MatchOption};
ghost use Rattle.words.specs.Words.{piece};
ghost use Rattle.forms.specs.Extended.{closed};
ghost use Rattle.forms.specs.Numbers.{is_numeral, numeral_run, leads, lettered, after, front, past, left, seen_then, seen_numeral};

use crate::Numeral;
use crate::rest::Rest;
use words::Part;

fn is_numeral(b: u8) -> bool
    ensures { result ≡ is_numeral b }
{
    matches!(b, b'0'..=b'9' | b'+' | b'-' | b'.')
}

// How many digits, signs and points the text begins with: one line, as for gaps and contents in words.
fn numeral_run(text: &[u8]) -> usize
    ensures value { result ≡ numeral_run text.now }
    ensures bound { result ≤ length text.now }
{
    text.iter().take_while(|b| is_numeral(**b)).count()
}

impl<'a> Rest<'a> {
    // The whole of a content, where it ends below the last address.
    pub(crate) fn of(part: Part<'a>) -> Option<Rest<'a>>
        ensures { MatchOption result (2 ^ 64 ≤ part.entry.at + length part.entry.text.now) (λ r. left r ≡ piece part.entry) }
    {
        part.at.checked_add(part.text.len())?;
        Some(Rest { part })
    }

    // Its first `n` bytes.
    pub(crate) fn front(self, n: usize) -> Part<'a>
        requires { n ≤ length self.part.text.now }
        ensures { piece result ≡ front n (left self.entry) }
    {
        Part {
            at: self.part.at,
            text: &self.part.text[..n],
        }
    }

    // What is left behind its first `n` bytes.
    pub(crate) fn past(self, n: usize) -> Rest<'a>
        requires { n ≤ length self.part.text.now }
        ensures { left result ≡ past n (left self.entry) }
    {
        Rest {
            part: Part {
                at: self.part.at + n,
                text: &self.part.text[n..],
            },
        }
    }

    // The value, if nothing is left.
    pub(crate) fn closed<T: Drop>(self, value: T) -> Option<T>
        ensures { result ≡ closed (left self.entry) value }
    {
        self.part.text.is_empty().then_some(value)
    }

    pub(crate) fn begins(self, letter: u8) -> bool
        ensures { result ≡ leads letter self.entry.part.text.now }
    {
        self.part.text.first() == Some(&letter)
    }

    // Behind the letter, its numeral and what follows.
    #[tactic(auto, unfolding(crate::specs::Numbers::lettered))]
    fn lettered(self, letter: u8) -> Option<(Part<'a>, Rest<'a>)>
        ensures { seen_then piece result ≡ lettered letter (left self.entry) }
    {
        if !self.begins(letter) {
            return None;
        }
        let behind = self.past(1);
        let run = numeral_run(behind.part.text);
        Some((behind.front(run), behind.past(run)))
    }

    // The numeral behind the letter, whose value `value_of` reads, and what follows.
    #[tactic(auto, unfolding(crate::specs::Numbers::after))]
    pub(crate) fn numeral_after<T, F: FnOnce(&[u8]) -> Option<T>>(
        self,
        letter: u8,
        value_of: F,
    ) -> Option<(Numeral<'a, T>, Rest<'a>)>
        requires { F.IsAlwaysCallable value_of }
        ensures { (reads : List ℕ → Option T) → ((t : _) (r : Option T) → F.post value_of t r → r ≡ reads t.now) → seen_then seen_numeral result ≡ after reads letter (left self.entry) }
    {
        let (part, rest) = self.lettered(letter)?;
        let value = value_of(part.text)?;
        Some((Numeral { part, value }, rest))
    }
}
