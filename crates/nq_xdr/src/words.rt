//! A word that is written many times.

ghost use Rattle.std.specs.Prelude.{◌≡◌, ℕ, ◌+◌, ◌*◌, ◌≤◌, ◌++◌, List, length, take, vec_len, vec_capacity};
ghost use Rattle.nq_xdr.specs.Words.{repeats, many};

/// How many words are written at once.
const MANY: usize = 64;

/// Adds a word at the end, so many times. There is room for them.
pub fn push_words(out: &mut Vec<u8>, word: [u8; 4], times: usize)
    requires { vec_len out.old + 4 * times ≤ vec_capacity out.old }
    ensures words { out.new.items ≡ out.old.items ++ repeats times word }
    ensures len { vec_len out.new ≡ vec_len out.old + 4 * times }
    ensures capacity { vec_capacity out.old ≤ vec_capacity out.new }
{
    if times == 0 {
        return;
    }
    let many = many_of(word);
    for _round in 0..times / MANY {
        out.extend_from_slice(&many).unwrap();
    }
    out.extend_from_slice(&many[..4 * (times % MANY)]).unwrap();
}

/// A word, 64 times over.
fn many_of(word: [u8; 4]) -> [u8; 4 * MANY]
    ensures { result ≡ many word }
{
    let mut bytes = [0; 4 * MANY];
    bytes[0] = word[0];
    bytes[1] = word[1];
    bytes[2] = word[2];
    bytes[3] = word[3];
    double(&mut bytes, 1);
    double(&mut bytes, 2);
    double(&mut bytes, 4);
    double(&mut bytes, 8);
    double(&mut bytes, 16);
    double(&mut bytes, 32);
    bytes
}

/// Copies the first words, so many of them, behind themselves.
fn double(bytes: &mut [u8], words: usize)
    requires { 4 * (words + words) ≤ length bytes.old }
    ensures doubled { (word : List ℕ) → take (4 * words) bytes.old ≡ repeats words word → take (4 * (words + words)) bytes.new ≡ repeats (words + words) word }
    ensures size { length bytes.new ≡ length bytes.old }
{
    let done = 4 * words;
    bytes.copy_within(0..done, done);
}
