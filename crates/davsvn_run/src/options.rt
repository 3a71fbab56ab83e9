ghost use Rattle.std.specs.Prelude.{◌≡◌, ◌||◌};
ghost use Rattle.std.specs.Option.{option_copied, option_map};
ghost use Rattle.davsvn_run.specs.Options.{takes_value, stands_alone, read_options, value_of, has_double};
ghost use Rattle.davsvn_run.specs.Words.{IsFront};

use crate::verb::Verb;
use dsv_base::Bytes;

/// An option at the front of the words, and the words after it.
#[derive(Clone, Copy)]
struct Front<'a> {
    name: &'a [u8],
    /// Empty where the option takes none.
    value: &'a [u8],
    rest: &'a [Bytes],
}

/// Whether the command has an option of this name, which takes a value.
fn takes_value(verb: Verb, name: &[u8]) -> bool
    ensures { result ≡ takes_value verb name.now }
{
    match verb {
        Verb::Pipe => {
            name == b"--script".as_slice()
                || name == b"--rules".as_slice()
                || name == b"--users".as_slice()
        }
        Verb::AccessOf => {
            name == b"--rules".as_slice()
                || name == b"--repos".as_slice()
                || name == b"--user".as_slice()
                || name == b"--is".as_slice()
        }
        Verb::Serve => {
            name == b"--script".as_slice()
                || name == b"--rules".as_slice()
                || name == b"--users".as_slice()
                || name == b"--listen".as_slice()
                || name == b"--workers".as_slice()
                || name == b"--each".as_slice()
        }
    }
}

/// Whether the command has an option of this name, which takes none.
fn stands_alone(verb: Verb, name: &[u8]) -> bool
    ensures { result ≡ stands_alone verb name.now }
{
    match verb {
        Verb::Pipe => false,
        Verb::AccessOf => name == b"--recursive".as_slice(),
        Verb::Serve => false,
    }
}

/// The option at the front, where one stands there.
#[tactic(auto, using(crate::proofs::OptionWords::front_alone, crate::proofs::OptionWords::front_valued, crate::proofs::OptionWords::front_other, crate::proofs::OptionWords::front_last), unfolding(crate::specs::Options::read_options))]
fn front_option(verb: Verb, words: &[Bytes]) -> Option<Front<'_>>
    ensures { IsFront verb words.now
        (option_map (λ front. (front.name.now, front.value.now, front.rest.now)) result) }
{
    let [word, rest @ ..] = words else {
        return None;
    };
    let name = word.get();
    if stands_alone(verb, name) {
        let value: &[u8] = &[];
        return Some(Front { name, value, rest });
    }
    if !takes_value(verb, name) {
        return None;
    }
    let [value, rest @ ..] = rest else {
        return None;
    };
    let value = value.get();
    Some(Front { name, value, rest })
}

/// The words after the options.
pub fn words_after(verb: Verb, words: &[Bytes]) -> &[Bytes]
    ensures { result.now ≡ (read_options verb words.now).1 }
{
    let mut rest = words;
    'options: loop {
        match front_option(verb, rest) {
            None => return rest,
            Some(front) => rest = front.rest,
        }
    }
}

/// The value of the option of this name, where it is given.
#[tactic(auto, unfolding(crate::specs::Options::value_of))]
pub fn value_of<'a>(verb: Verb, words: &'a [Bytes], name: &[u8]) -> Option<&'a [u8]>
    ensures { option_copied result ≡ value_of name.now (read_options verb words.now).0 }
{
    let mut rest = words;
    'options: loop {
        match front_option(verb, rest) {
            None => return None,
            Some(front) if front.name == name => return Some(front.value),
            Some(front) => rest = front.rest,
        }
    }
}

/// Whether an option is given twice.
#[tactic(auto, unfolding(crate::specs::Options::has_double))]
pub fn has_double(verb: Verb, words: &[Bytes]) -> bool
    ensures { result ≡ has_double (read_options verb words.now).0 }
{
    let mut rest = words;
    'options: loop {
        match front_option(verb, rest) {
            None => return false,
            Some(front) if value_of(verb, front.rest, front.name).is_some() => return true,
            Some(front) => rest = front.rest,
        }
    }
}
