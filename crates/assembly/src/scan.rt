// A walk over bytes of one class.
ghost use Rattle.std.specs.Prelude.{◌≡◌};
ghost use Rattle.assembly.specs.Words.{in_class, Spans};

// What a line goes on with, what stands before a comment, what is between words, what a word goes on with, what stands before a carriage return.
#[derive(Clone, Copy)]
pub enum Class {
    Line,
    Plain,
    Blank,
    Word,
    Shown,
}

fn in_class(class: Class, b: u8) -> bool
    ensures { result ≡ in_class class b }
{
    match class {
        Class::Line => b != b'\n',
        Class::Plain => b != b'#',
        Class::Blank => b == b' ' || b == b'\t',
        Class::Word => b != b' ' && b != b'\t',
        Class::Shown => b != b'\r',
    }
}

// How many bytes of a class stand first.
pub fn span(s: &[u8], class: Class) -> usize
    ensures { Spans (in_class class) s.now result }
{
    for (i, b) in s.iter().enumerate() {
        if !in_class(class, *b) {
            return i;
        }
    }
    s.len()
}
