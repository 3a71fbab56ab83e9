ghost use Rattle.std.specs.Prelude.{◌≡◌};
ghost use Rattle.std.specs.Option.{option_copied, option_map};
ghost use Rattle.dsv_base.specs.Names.{is_user_name, is_repository_name};
ghost use Rattle.davsvn_run.specs.declared.verb.Verb.TheVariants as verbs;
ghost use Rattle.davsvn_run.specs.Commands.{command, pipe_command, accessof_command, file_names_of, question_of, needed, optional, that, is_file_name, right_named};
ghost use Rattle.davsvn_run.specs.Options.{read_options};
ghost use Rattle.davsvn_run.specs.Words.{ReadsCommand, command_in, file_names_in, question_in};

use crate::command::{Command, FileNames, Question};
use crate::options::{has_double, value_of, words_after};
use crate::verb::Verb;
use authz_file::Right;
use dsv_base::{Bytes, NoMemory, Path, PathFault, is_repository_name, is_user_name};
use std::alloc::Global;

/// What the words ask for, where they are those of a command: its name, its options in any order,
/// each at most once, and then the path of `accessof`.
///
/// # Errors
/// Want of memory, which comes only where they are those of a command.
pub fn read_words(alloc: Global, words: &[Bytes]) -> Result<Option<Command<'_>>, NoMemory>
    ensures { ReadsCommand (command words.now) result }
{
    let [verb, words @ ..] = words else {
        return Ok(None);
    };
    if verb.get() == b"pipe".as_slice() {
        return Ok(pipe_command(words));
    }
    if verb.get() == b"accessof".as_slice() {
        return accessof_command(alloc, words);
    }
    Ok(None)
}

pub(crate) fn pipe_command(words: &[Bytes]) -> Option<Command<'_>>
    ensures { option_map command_in result ≡ pipe_command (read_options verbs.Pipe words.now) }
{
    let [] = words_after(Verb::Pipe, words) else {
        return None;
    };
    if has_double(Verb::Pipe, words) {
        return None;
    }
    Some(Command::Pipe(file_names_of(Verb::Pipe, words)?))
}

fn accessof_command(alloc: Global, words: &[Bytes]) -> Result<Option<Command<'_>>, NoMemory>
    ensures { ReadsCommand (accessof_command (read_options verbs.AccessOf words.now)) result }
{
    let [path] = words_after(Verb::AccessOf, words) else {
        return Ok(None);
    };
    if has_double(Verb::AccessOf, words) {
        return Ok(None);
    }
    let Some(question) = question_of(words) else {
        return Ok(None);
    };
    match Path::parse(alloc, path.get()) {
        Ok(path) => Ok(Some(Command::AccessOf(question, path))),
        Err(PathFault::BadPath) => Ok(None),
        Err(PathFault::NoMemory) => Err(NoMemory),
    }
}

/// The files that the options of the command name.
pub(crate) fn file_names_of(verb: Verb, words: &[Bytes]) -> Option<FileNames<'_>>
    ensures { option_map file_names_in result ≡ file_names_of (read_options verb words.now).0 }
{
    let script = file_name(value_of(verb, words, b"--script"))?;
    let rules = file_name(value_of(verb, words, b"--rules"))?;
    let users = file_name(value_of(verb, words, b"--users"))?;
    Some(FileNames {
        script,
        rules,
        users,
    })
}

/// What the options of `accessof` ask.
fn question_of(words: &[Bytes]) -> Option<Question<'_>>
    ensures { option_map question_in result ≡ question_of (read_options verbs.AccessOf words.now).0 }
{
    let rules = file_name(value_of(Verb::AccessOf, words, b"--rules"))?;
    let repos = repository_name(value_of(Verb::AccessOf, words, b"--repos"))?;
    let user = user_name(value_of(Verb::AccessOf, words, b"--user"))?;
    let expected = right_told(value_of(Verb::AccessOf, words, b"--is"))?;
    let recursive = value_of(Verb::AccessOf, words, b"--recursive").is_some();
    Some(Question {
        rules,
        repos,
        user,
        expected,
        recursive,
    })
}

/// A file's name isn't empty.
fn file_name(value: Option<&[u8]>) -> Option<&[u8]>
    ensures { option_copied result ≡ needed (that is_file_name) (option_copied value.entry) }
{
    match value? {
        [] => None,
        name => Some(name),
    }
}

fn repository_name(value: Option<&[u8]>) -> Option<&[u8]>
    ensures { option_copied result ≡ needed (that is_repository_name) (option_copied value.entry) }
{
    let name = value?;
    if is_repository_name(name) {
        Some(name)
    } else {
        None
    }
}

/// The user, who may be nobody; none where the value isn't a user's name.
fn user_name(value: Option<&[u8]>) -> Option<Option<&[u8]>>
    ensures { option_map option_copied result ≡ optional (that is_user_name) (option_copied value.entry) }
{
    match value {
        None => Some(None),
        Some(name) if is_user_name(name) => Some(Some(name)),
        Some(_) => None,
    }
}

/// The right that it has to be, if one is told; none where the value isn't a right's name.
fn right_told(value: Option<&[u8]>) -> Option<Option<Right>>
    ensures { result ≡ optional right_named (option_copied value.entry) }
{
    match value {
        None => Some(None),
        Some(name) => Some(Some(right_named(name)?)),
    }
}

fn right_named(word: &[u8]) -> Option<Right>
    ensures { result ≡ right_named word.now }
{
    if word == b"no".as_slice() {
        return Some(Right::No);
    }
    if word == b"r".as_slice() {
        return Some(Right::Read);
    }
    if word == b"rw".as_slice() {
        return Some(Right::Write);
    }
    None
}
