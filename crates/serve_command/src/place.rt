// Where `serve` listens if no address names a socket.

use crate::error::Refusal;
use crate::options::UsualPlace;
use crate::reasons::reason_of_folder;
use endpoints::{escape, unescape};
use std::alloc::Global;
use std::env::VarError;
use std::fs::{DirBuilder, Files};
use std::io::ErrorKind;
use std::os::unix::fs::DirBuilderExt;
use std::random::RandomSource;
use std::rt::Env;
use std::{env, fs, io};

/// Only the user that runs the bus enters a folder of this mode.
const OWNER_ALONE: u32 = 0o700;

/// The variable that names the user's folder of sockets (XDG Base Directory Specification).
const RUNTIME_FOLDER: &str = "XDG_RUNTIME_DIR";

/// The path of a socket.
#[derive(Drop)]
pub(crate) struct Place {
    /// The path as an address spells it.
    pub(crate) value: String,
    /// The folder that was made for this bus alone, if one was.
    made: Option<String>,
}

impl Place {
    /// The place of a bus for which none is said. Nobody else enters its folder.
    pub(crate) fn usual<R>(rt: &R, alloc: Global, usual: UsualPlace) -> Result<Place, Refusal>
    where
        R: Files + Env + RandomSource + Alloc,
    {
        if let UsualPlace::OfUser = usual
            && let Some(runtime) = runtime_folder(rt, alloc)?
        {
            let runtime = runtime.as_str();
            let folder = format!(in alloc; "{runtime}/dbusfan").map_err(|_| Refusal::memory())?;
            make_folder(rt, alloc, folder.as_str(), true)?;
            return Place::of_name(alloc, folder.as_str(), "bus", None);
        }
        let name = new_name(rt, alloc)?;
        let Ok(base) = env::temp_dir(rt) else {
            return Err(Refusal::memory());
        };
        let (base, name) = (base.as_str().trim_end_matches('/'), name.as_str());
        let folder = format!(in alloc; "{base}/{name}").map_err(|_| Refusal::memory())?;
        make_folder(rt, alloc, folder.as_str(), false)?;
        let made = folder.clone().map_err(|_| Refusal::memory())?;
        Place::of_name(alloc, folder.as_str(), "bus", Some(made))
    }

    /// A socket of a new name in a folder that is there, which is given as an address spells it.
    pub(crate) fn new_in<R>(rt: &R, alloc: Global, folder: &str) -> Result<Place, Refusal>
    where
        R: RandomSource,
    {
        let name = new_name(rt, alloc)?;
        let folder = unescape(alloc, folder).map_err(|error| Refusal::of_place(
            alloc, &folder, &error, None,
        ))?;
        let folder = folder.as_str().trim_end_matches('/');
        Place::of_name(alloc, folder, name.as_str(), None)
    }

    /// The socket `bus` in the user's folder of sockets, as other buses take it for the user's session.
    pub(crate) fn of_runtime<R>(rt: &R, alloc: Global) -> Result<Place, Refusal>
    where
        R: Env + Alloc,
    {
        match runtime_folder(rt, alloc)? {
            Some(folder) => Place::of_name(alloc, folder.as_str(), "bus", None),
            None => Err(Refusal::no_runtime_folder()),
        }
    }

    fn of_name(
        alloc: Global,
        folder: &str,
        name: &str,
        made: Option<String>,
    ) -> Result<Place, Refusal> {
        let path = format!(in alloc; "{folder}/{name}").map_err(|_| Refusal::memory())?;
        match escape(alloc, path.as_bytes()) {
            Ok(value) => Ok(Place { value, made }),
            Err(_) => Err(Refusal::memory()),
        }
    }

    /// Removes the folder that was made for this bus alone.
    pub(crate) fn remove<R: Files>(&self, rt: &R) {
        if let Some(folder) = &self.made {
            let _ = fs::remove_dir(rt, folder.as_str());
        }
    }
}

/// The user's folder of sockets, if a variable says it. A path that isn't absolute says nothing.
fn runtime_folder<R: Env + Alloc>(rt: &R, alloc: Global) -> Result<Option<String>, Refusal> {
    match env::var(rt, RUNTIME_FOLDER) {
        Ok(folder) if folder.as_str().starts_with('/') => {
            let folder = String::from_str(alloc, folder.as_str().trim_end_matches('/'));
            Ok(Some(folder.map_err(|_| Refusal::memory())?))
        }
        Err(VarError::OutOfMemory) => Err(Refusal::memory()),
        _ => Ok(None),
    }
}

/// A name that no file has.
fn new_name<R: RandomSource>(rt: &R, alloc: Global) -> Result<String, Refusal> {
    let mut bytes = [0u8; 8];
    if rt.fill_bytes(&mut bytes).is_err() {
        return Err(Refusal::no_random());
    }
    let number = u64::from_ne_bytes(bytes);
    format!(in alloc; "dbusfan-{number:016x}").map_err(|_| Refusal::memory())
}

/// Makes a folder that only this user enters. One that is there already is taken if it may be.
fn make_folder<R: Files>(
    rt: &R,
    alloc: Global,
    path: &str,
    may_be_there: bool,
) -> Result<(), Refusal> {
    match try_to_make(rt, path, may_be_there) {
        Ok(()) => Ok(()),
        Err(error) => {
            let reason = reason_of_folder(&error);
            Err(Refusal::of_place(alloc, &path, &error, reason))
        }
    }
}

fn try_to_make<R: Files>(rt: &R, path: &str, may_be_there: bool) -> io::Result<()> {
    let mut builder = DirBuilder::new();
    builder.mode(OWNER_ALONE);
    match builder.create(rt, path) {
        Err(error) if may_be_there && error.kind() == ErrorKind::AlreadyExists => {
            if fs::metadata(rt, path)?.is_dir() {
                Ok(())
            } else {
                Err(io::Error::from(ErrorKind::NotADirectory))
            }
        }
        made => made,
    }
}
