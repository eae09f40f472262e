// Lines of text, byte by byte: what splits them into words; and in specs/ and proofs/ the words of a line, and reading on to its newline, whatever is kept of it.
#![tactic(auto)]

ghost use Rattle.std.specs.Prelude.{◌≡◌};
ghost use Rattle.script_words.specs.Words.{is_blank};

// Words are split at spaces, tabs and carriage returns.
pub fn is_blank(b: u8) -> bool
    ensures { result ≡ is_blank b }
{
    matches!(b, b' ' | b'\t' | b'\r')
}
