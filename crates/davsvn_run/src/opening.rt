ghost use Rattle.std.specs.Prelude.{◌≡◌, ◌⊎◌, ◌≤◌, length};
ghost use Rattle.dsv_outside.specs.Causes.{HasCause};
ghost use Rattle.dsv_outside.specs.Reads.{Holds};
ghost use Rattle.rev_nodes.specs.Forests.{repository_of};
ghost use Rattle.davsvn_run.specs.declared.end.End.TheVariants as end;
ghost use Rattle.davsvn_run.specs.Opening.{refused_at, IsScript, IsNoScript, AreRules, AreNoRules, AreUsers, AreNoUsers, ReadsFile, is_failed_read, end_of};

use crate::end::End;
use crate::unread::Unread;
use authz_file::{Rules, read_rules};
use dsv_base::{Bytes, NoMemory};
use dsv_outside::{FileGot, Files};
use http_front::{Users, UsersFault, read_users};
use rev_scripts::{ScriptFault, read_script};
use rev_trees::Trees;
use std::alloc::Global;

/// The bytes of a file.
fn read_text<F: Files>(files: &mut F, name: &[u8]) -> Result<Bytes, Unread>
    ensures bytes { ReadsFile
        (λ text. Holds (F.contents files.old) name.now text × (length text ≤ 268435456)) (λ line. ⊥) result }
    ensures same { F.contents files.new ≡ F.contents files.old }
    ensures cause { HasCause (F.faults files.old) (F.faults files.new) (is_failed_read result) }
{
    match files.read(name) {
        FileGot::Bytes(text) => Ok(text),
        FileGot::Failed => Err(Unread::Failed),
        FileGot::NoMemory => Err(Unread::NoMemory),
    }
}

/// Reads the script file and checks it.
pub fn open_script<F: Files>(alloc: Global, files: &mut F, name: &[u8]) -> Result<Trees, Unread>
    ensures bytes { ReadsFile (λ trees. IsScript (F.contents files.old) name.now (repository_of trees))
        (IsNoScript (F.contents files.old) name.now) result }
    ensures same { F.contents files.new ≡ F.contents files.old }
    ensures cause { HasCause (F.faults files.old) (F.faults files.new) (is_failed_read result) }
{
    let text = read_text(files, name)?;
    match read_script(alloc, &text) {
        Ok(trees) => Ok(trees),
        Err(ScriptFault::BadScript { line }) => Err(Unread::BadLine(line)),
        Err(ScriptFault::NoMemory) => Err(Unread::NoMemory),
    }
}

/// Reads the rules file and checks it.
pub fn open_rules<F: Files>(alloc: Global, files: &mut F, name: &[u8]) -> Result<Rules, Unread>
    ensures bytes { ReadsFile (AreRules (F.contents files.old) name.now)
        (AreNoRules (F.contents files.old) name.now) result }
    ensures same { F.contents files.new ≡ F.contents files.old }
    ensures cause { HasCause (F.faults files.old) (F.faults files.new) (is_failed_read result) }
{
    let text = read_text(files, name)?;
    match read_rules(alloc, text.get()) {
        Ok(rules) => Ok(rules),
        Err(fault) => Err(refused_at(fault.line())),
    }
}

/// A refusal with its line; without one it is want of memory.
fn refused_at(line: Option<u32>) -> Unread
    ensures { result ≡ refused_at line }
{
    match line {
        Some(line) => Unread::BadLine(line),
        None => Unread::NoMemory,
    }
}

/// Reads the users file and checks it.
pub fn open_users<F: Files>(alloc: Global, files: &mut F, name: &[u8]) -> Result<Users, Unread>
    ensures bytes { ReadsFile (AreUsers (F.contents files.old) name.now)
        (AreNoUsers (F.contents files.old) name.now) result }
    ensures same { F.contents files.new ≡ F.contents files.old }
    ensures cause { HasCause (F.faults files.old) (F.faults files.new) (is_failed_read result) }
{
    let text = read_text(files, name)?;
    match read_users(alloc, text.get()) {
        Ok(users) => Ok(users),
        Err(UsersFault::BadUsers { line }) => Err(Unread::BadLine(line)),
        Err(UsersFault::NoMemory) => Err(Unread::NoMemory),
    }
}

/// The end of a run that needs the file of this name.
pub fn end_of(alloc: Global, name: &[u8], why: Unread) -> End
    ensures { (result ≡ end_of name.now why) ⊎ (result ≡ end.NoMemory) }
{
    match why {
        Unread::BadLine(line) => match Bytes::of(alloc, name) {
            Ok(name) => End::BadFile(name, line),
            Err(NoMemory) => End::NoMemory,
        },
        Unread::Failed => match Bytes::of(alloc, name) {
            Ok(name) => End::FileFault(name),
            Err(NoMemory) => End::NoMemory,
        },
        Unread::NoMemory => End::NoMemory,
    }
}
