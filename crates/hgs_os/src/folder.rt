//! A folder of the operating system, and what the system is asked to do with the files in it.
//!
//! A file is named by the folder's name, `/` and its path. Folders between are made as needed. What the system refuses is
//! the error; how often it refused is counted above.
ghost use Rattle.std.specs.Prelude.{◌≤◌, ◌+◌, length};
ghost use Rattle.hgs_os.specs.Reading.{AddsAnswered, AddsPart};

use crate::streams::read_once;
use hgs_files::files::Created;
use hgs_files::path::StorePath;
use std::alloc::AllocError;
use std::collections::BTreeMap;
use std::fs::{self, File, OpenOptions, Permissions};
use std::io::{self, ErrorKind, Read, Write};
use std::os::unix::fs::{FileExt, MetadataExt, PermissionsExt};
use std::path::Path;

/// A folder, and the folders whose lists of names changed since they were last made to last.
#[derive(Drop)]
pub struct Folder {
    rt: HostRuntime,
    name: String,
    /// These folders by the number of their latest change, and back.
    changed: BTreeMap<u64, String>,
    places: BTreeMap<String, u64>,
    /// The number of the next change.
    changes: u64,
    /// Whether the names that an earlier process changed were made to last.
    settled: bool,
}

/// What stands under a name.
#[derive(Drop)]
enum Found {
    Nothing,
    /// A file, which has one name or more.
    File { len: u64, names: u64 },
    /// A link that leads nowhere, as Mercurial's locks are. Its text is the file's bytes.
    Link(Vec<u8>),
}

// Whether the error says that no file stands there: none has the name, or a folder on the way to it is missing or a file.
fn is_absent(error: &io::Error) -> bool {
    error.kind() == ErrorKind::NotFound || error.kind() == ErrorKind::NotADirectory
}

// An error of a call after some bytes may have been written, which is then never want of memory, as that changes nothing.
fn begun(answer: io::Result<()>) -> io::Result<()> {
    match answer {
        Err(error) if error.kind() == ErrorKind::OutOfMemory => Err(ErrorKind::Other.into()),
        answer => answer,
    }
}

// The bytes of a file from a place on.
#[derive(Drop)]
struct Behind<'a> {
    file: &'a File,
    from: u64,
}

impl Read for Behind<'_> {
    fn read(&mut self, buf: &mut [u8]) -> io::Result<usize> {
        let count = self.file.read_at(buf, self.from)?;
        self.from = self.from.saturating_add(count as u64);
        Ok(count)
    }
}

// Reads up to the end, or up to `most` bytes.
fn read_up_to<R: Read>(reader: &mut R, most: u64, into: &mut Vec<u8>) -> io::Result<u64>
    ensures { AddsAnswered most into.old.items into.new.items result }
{
    let start = into.len();
    let mut count = 0;
    for _ in 0..u64::MAX {
        if count >= most {
            break;
        }
        match read_once(reader, most - count, into) {
            Ok(0) => break,
            Ok(more) => count += more,
            Err(error) => {
                into.truncate(start);
                return Err(error);
            }
        }
    }
    Ok(count)
}

// The part of these bytes from a place on, of at most so many.
fn part_of(bytes: &[u8], from: u64, most: u64) -> &[u8]
    ensures { length result.now ≤ most }
{
    let from = from.min(bytes.len() as u64) as usize;
    let rest = &bytes[from..];
    &rest[..most.min(rest.len() as u64) as usize]
}

impl Folder {
    pub fn new(rt: HostRuntime, name: &str) -> Result<Folder, AllocError> {
        Ok(Folder {
            rt,
            name: String::from_str(rt.alloc(), name)?,
            changed: BTreeMap::new(rt.alloc()),
            places: BTreeMap::new(rt.alloc()),
            changes: 0,
            settled: false,
        })
    }

    /// The same folder, in which nothing was changed yet.
    pub fn again(&self) -> Result<Folder, AllocError> {
        Folder::new(self.rt, &self.name)
    }

    // The name of a file, where its path is text. std names files by text, and the names in a store are ASCII: under another name
    // nothing is made, so nothing stands.
    fn name_if_text(&self, path: &StorePath) -> io::Result<Option<String>> {
        match str::from_utf8(path.bytes()) {
            Ok(path) => Ok(Some(format!(in self.rt.alloc(); "{}/{path}", self.name)?)),
            Err(_) => Ok(None),
        }
    }

    // The name of a file that may be made. A path that is no text is refused.
    fn name_of(&self, path: &StorePath) -> io::Result<String> {
        match self.name_if_text(path)? {
            Some(name) => Ok(name),
            None => Err(ErrorKind::InvalidFilename.into()),
        }
    }

    // What stands under a name.
    fn find(&self, name: &str) -> io::Result<Found> {
        match self.find_file(name)? {
            Found::Nothing => self.find_link(name),
            found => Ok(found),
        }
    }

    // The file under a name, where there is one. What is neither a file nor a link that leads nowhere is an error, and is not
    // opened, since opening a pipe waits for its other end.
    fn find_file(&self, name: &str) -> io::Result<Found> {
        match fs::metadata(&self.rt, name) {
            Ok(found) if found.is_file() => Ok(Found::File {
                len: found.len(),
                names: found.nlink(),
            }),
            Ok(_) => Err(ErrorKind::IsADirectory.into()),
            Err(error) if is_absent(&error) => Ok(Found::Nothing),
            Err(error) => Err(error),
        }
    }

    // The link that leads nowhere under a name, where there is one. What is no link by now was put there meanwhile, by another
    // process.
    fn find_link(&self, name: &str) -> io::Result<Found> {
        match fs::read_link(&self.rt, name) {
            Ok(text) => Ok(Found::Link(Vec::from_slice(
                self.rt.alloc(),
                text.as_str().as_bytes(),
            )?)),
            Err(error) if is_absent(&error) => Ok(Found::Nothing),
            Err(error) if error.kind() == ErrorKind::InvalidInput => self.find_file(name),
            Err(error) => Err(error),
        }
    }

    // Notes that the list of names of the folder of a file changes now, before it does. Where there is no memory for that nothing is to
    // be changed; an earlier note goes only when the new one stands, so none is lost.
    fn note(&mut self, name: &str) -> io::Result<()> {
        let alloc = self.rt.alloc();
        let Some(folder) = Path::new(name).parent() else {
            return Ok(());
        };
        let place = self.changes;
        self.changed
            .insert(place, String::from_str(alloc, folder.as_str())?)?;
        self.changes = place.saturating_add(1);
        let folder = String::from_str(alloc, folder.as_str())?;
        if let Some(earlier) = self.places.insert(folder, place)? {
            self.changed.remove(&earlier);
        }
        Ok(())
    }

    // The names in this folder last.
    fn forget(&mut self, folder: &str) {
        if let Some(place) = self.places.remove(folder) {
            self.changed.remove(&place);
        }
    }

    // Makes the folders on the way to a file; each is a name in the one above it. What cannot be looked at, stands, and so does the
    // folder of no name, the current one.
    fn make_folders(&mut self, name: &str) -> io::Result<()> {
        let mut missing = Vec::new(self.rt.alloc());
        for folder in Path::new(name).ancestors().skip(1) {
            let folder = folder.as_str();
            if folder.is_empty() {
                break;
            }
            match fs::metadata(&self.rt, folder) {
                Err(error) if is_absent(&error) => {
                    self.note(folder)?;
                    missing.push(String::from_str(self.rt.alloc(), folder)?)?;
                }
                _ => break,
            }
        }
        for folder in missing.iter().rev() {
            self.make_folder(folder.as_str())?;
        }
        Ok(())
    }

    // Makes a folder, unless another process made it meanwhile, with the mode of the one that it stands in, as Mercurial does, so that a
    // store that a group shares stays so.
    fn make_folder(&self, name: &str) -> io::Result<()> {
        match fs::create_dir(&self.rt, name) {
            Ok(()) => {}
            Err(error) if error.kind() == ErrorKind::AlreadyExists => return Ok(()),
            Err(error) => return Err(error),
        }
        let above = match Path::new(name).parent() {
            Some(above) if !above.as_str().is_empty() => above,
            _ => return Ok(()),
        };
        let wanted = fs::metadata(&self.rt, above)?.mode() & 0o7777;
        if fs::metadata(&self.rt, name)?.mode() & 0o7777 == wanted {
            return Ok(());
        }
        fs::set_permissions(&self.rt, name, Permissions::from_mode(wanted))
    }

    // Opens a file that may have to be made, with the folders on the way to it.
    fn open_or_make(&mut self, how: &OpenOptions, name: &str) -> io::Result<File> {
        match how.open(&self.rt, name) {
            Err(error) if error.kind() == ErrorKind::NotFound => {
                self.make_folders(name)?;
                how.open(&self.rt, name)
            }
            answer => answer,
        }
    }

    // Gives a file that was made the mode of its folder, without the right to run it, as Mercurial does.
    fn give_mode(&self, file: &File, name: &str) -> io::Result<()> {
        let Some(folder) = Path::new(name).parent() else {
            return Ok(());
        };
        let wanted = fs::metadata(&self.rt, folder)?.mode() & 0o666;
        if file.metadata()?.mode() & 0o777 == wanted {
            return Ok(());
        }
        file.set_permissions(Permissions::from_mode(wanted))
    }

    // Writes a copy of a file beside it, over nothing that stands there, and puts it into its place once the copy lasts. What is written
    // to the file behind this is in the copy alone, so its name is to last before.
    fn replace_by_copy(&self, name: &str, copy: &str) -> io::Result<()> {
        let mut from = self.open_file(name)?;
        let mut to = OpenOptions::new()
            .write(true)
            .create_new(true)
            .open(&self.rt, copy)?;
        to.set_permissions(from.metadata()?.permissions())?;
        io::copy(&mut from, &mut to)?;
        to.sync_all()?;
        fs::rename(&self.rt, copy, name)?;
        match Path::new(name).parent() {
            Some(folder) => self.settle_folder(folder.as_str()),
            None => Ok(()),
        }
    }

    // Makes a file ready to be changed in place, and answers whether it is still to be made. One that has several names gets
    // a copy of its own under this one: `hg clone` on one disk makes the files of the new store second names of the old one's,
    // and a change would reach into both. A copy that a stop left behind is removed. A link that leads nowhere is left alone.
    fn make_own(&mut self, name: &str) -> io::Result<bool> {
        let names = match self.find(name)? {
            Found::Nothing => 0,
            Found::File { names, .. } => names,
            Found::Link(_) => return Err(ErrorKind::AlreadyExists.into()),
        };
        if names != 1 {
            self.note(name)?;
        }
        let copy = format!(in self.rt.alloc(); "{name}.hg_store-copy")?;
        let _ = fs::remove_file(&self.rt, copy.as_str());
        if names > 1 {
            let answer = self.replace_by_copy(name, copy.as_str());
            let _ = fs::remove_file(&self.rt, copy.as_str());
            begun(answer)?;
        }
        Ok(names == 0)
    }

    // Opens a file that stood, to be read.
    fn open_file(&self, name: &str) -> io::Result<File> {
        let file = File::open(&self.rt, name)?;
        if !file.metadata()?.is_file() {
            return Err(ErrorKind::IsADirectory.into());
        }
        Ok(file)
    }

    /// Adds a part of a file to `into`, and answers how many bytes; none where the file is absent. The length that counts
    /// is that of the file which was opened, whatever is put into its place meanwhile.
    pub fn read(
        &self,
        path: &StorePath,
        from: u64,
        most: u64,
        into: &mut Vec<u8>,
    ) -> io::Result<Option<u64>>
        ensures { AddsPart most into.old.items into.new.items result }
    {
        let Some(name) = self.name_if_text(path)? else {
            return Ok(None);
        };
        match self.find(name.as_str())? {
            Found::Nothing => Ok(None),
            Found::File { .. } => self.read_file(name.as_str(), from, most, into),
            Found::Link(text) => {
                let part = part_of(&text, from, most);
                into.extend_from_slice(part)?;
                Ok(Some(part.len() as u64))
            }
        }
    }

    // Adds a part of a file that stood.
    fn read_file(
        &self,
        name: &str,
        from: u64,
        most: u64,
        into: &mut Vec<u8>,
    ) -> io::Result<Option<u64>>
        ensures { AddsPart most into.old.items into.new.items result }
    {
        let file = match File::open(&self.rt, name) {
            Ok(file) => file,
            Err(error) if is_absent(&error) => return Ok(None),
            Err(error) => return Err(error),
        };
        let found = file.metadata()?;
        if !found.is_file() {
            return Err(ErrorKind::IsADirectory.into());
        }
        let part = found.len().saturating_sub(from).min(most);
        let mut bytes = Behind { file: &file, from };
        Ok(Some(read_up_to(&mut bytes, part, into)?))
    }

    pub fn size(&self, path: &StorePath) -> io::Result<Option<u64>> {
        let Some(name) = self.name_if_text(path)? else {
            return Ok(None);
        };
        match self.find(name.as_str())? {
            Found::Nothing => Ok(None),
            Found::File { len, .. } => Ok(Some(len)),
            Found::Link(text) => Ok(Some(text.len() as u64)),
        }
    }

    /// Adds bytes at the end of a file, by one call of the system where it takes them whole.
    pub fn append(&mut self, path: &StorePath, bytes: &[u8]) -> io::Result<()> {
        let name = self.name_of(path)?;
        let is_new = self.make_own(name.as_str())?;
        let mut file = self.open_or_make(
            OpenOptions::new().append(true).create(true),
            name.as_str(),
        )?;
        if is_new {
            begun(self.give_mode(&file, name.as_str()))?;
        }
        begun(file.write_all(bytes))
    }

    /// Gives a file these bytes alone. One that it made and could not fill is removed again, as far as the system lets it.
    pub fn put(&mut self, path: &StorePath, bytes: &[u8]) -> io::Result<()> {
        let name = self.name_of(path)?;
        let is_new = self.make_own(name.as_str())?;
        let mut how = OpenOptions::new();
        how.write(true).create(true).truncate(true);
        let mut file = self.open_or_make(&how, name.as_str())?;
        if is_new {
            return self.fill_or_remove(&mut file, name.as_str(), bytes);
        }
        begun(file.write_all(bytes))
    }

    /// Makes a file where none stands. One that it could not fill is removed again, as far as the system lets it.
    pub fn create_new(&mut self, path: &StorePath, bytes: &[u8]) -> io::Result<Created> {
        let name = self.name_of(path)?;
        self.note(name.as_str())?;
        let mut how = OpenOptions::new();
        how.write(true).create_new(true);
        let mut file = match self.open_or_make(&how, name.as_str()) {
            Ok(file) => file,
            Err(error) if error.kind() == ErrorKind::AlreadyExists => return Ok(Created::There),
            Err(error) => return Err(error),
        };
        self.fill_or_remove(&mut file, name.as_str(), bytes)?;
        Ok(Created::Made)
    }

    // Gives a file that was just made its mode and its bytes, or removes it again.
    fn fill_or_remove(&self, file: &mut File, name: &str, bytes: &[u8]) -> io::Result<()> {
        match self.fill(file, name, bytes) {
            Ok(()) => Ok(()),
            Err(error) => {
                begun(fs::remove_file(&self.rt, name))?;
                Err(error)
            }
        }
    }

    // Gives a new file its mode and its bytes.
    fn fill(&self, file: &mut File, name: &str, bytes: &[u8]) -> io::Result<()> {
        self.give_mode(file, name)?;
        file.write_all(bytes)
    }

    pub fn cut(&mut self, path: &StorePath, len: u64) -> io::Result<()> {
        match self.size(path)? {
            Some(stands) if len < stands => {}
            _ => return Ok(()),
        }
        let name = self.name_of(path)?;
        self.make_own(name.as_str())?;
        OpenOptions::new()
            .write(true)
            .open(&self.rt, name.as_str())?
            .set_len(len)
    }

    pub fn rename(&mut self, from: &StorePath, to: &StorePath) -> io::Result<()> {
        let from = self.name_of(from)?;
        let to = self.name_of(to)?;
        self.note(to.as_str())?;
        self.note(from.as_str())?;
        self.make_folders(to.as_str())?;
        fs::rename(&self.rt, from.as_str(), to.as_str())
    }

    pub fn remove(&mut self, path: &StorePath) -> io::Result<()> {
        let Some(name) = self.name_if_text(path)? else {
            return Ok(());
        };
        self.note(name.as_str())?;
        match fs::remove_file(&self.rt, name.as_str()) {
            Err(error) if is_absent(&error) => Ok(()),
            answer => answer,
        }
    }

    /// Makes the bytes of a file last. An absent file is an error, and so is what is no file.
    pub fn sync(&self, path: &StorePath) -> io::Result<()> {
        let name = self.name_of(path)?;
        match self.find_file(name.as_str())? {
            Found::File { .. } => self.open_file(name.as_str())?.sync_all(),
            _ => Err(ErrorKind::NotFound.into()),
        }
    }

    // Makes the names in a folder last. The folder of no name is the current one. The dot behind the name keeps what is no folder from
    // being opened, since opening a pipe waits for its other end: it has no names.
    fn settle_folder(&self, name: &str) -> io::Result<()> {
        let name = if name.is_empty() { "." } else { name };
        match File::open(&self.rt, format!(in self.rt.alloc(); "{name}/.")?.as_str()) {
            Ok(folder) => folder.sync_all(),
            Err(error) if is_absent(&error) => Ok(()),
            Err(error) => Err(error),
        }
    }

    // The folders in which an earlier process may have changed names that nobody made to last, those above first: the one in which
    // this folder was made, this one, the store, and all below that.
    fn all_folders(&self) -> io::Result<Vec<String>> {
        let alloc = self.rt.alloc();
        let mut folders = Vec::new(alloc);
        if let Some(above) = Path::new(self.name.as_str()).parent() {
            folders.push(String::from_str(alloc, above.as_str())?)?;
        }
        folders.push(String::from_str(alloc, &self.name)?)?;
        let mut at = folders.len();
        folders.push(format!(in alloc; "{}/store", self.name)?)?;
        for _ in 0..u64::MAX {
            if at >= folders.len() {
                break;
            }
            self.add_folders(at, &mut folders)?;
            at += 1;
        }
        Ok(folders)
    }

    // Adds the folders in one of these. A name that is no text is no store's.
    fn add_folders(&self, at: usize, folders: &mut Vec<String>) -> io::Result<()> {
        let Some(folder) = folders.get(at) else {
            return Ok(());
        };
        let listing = match fs::read_dir(&self.rt, folder.as_str()) {
            Ok(listing) => listing,
            Err(error) if is_absent(&error) => return Ok(()),
            Err(error) => return Err(error),
        };
        for entry in listing {
            let entry = match entry {
                Ok(entry) => entry,
                Err(error) if error.kind() == ErrorKind::InvalidFilename => continue,
                Err(error) => return Err(error),
            };
            if entry.file_type()?.is_dir() {
                folders.push(String::from_str(self.rt.alloc(), entry.path().as_str())?)?;
            }
        }
        Ok(())
    }

    // Makes the names last that an earlier process may have changed, those below first, so that what a folder leads to is whole.
    fn settle_all(&mut self) -> io::Result<()> {
        let folders = self.all_folders()?;
        for folder in folders.iter().rev() {
            self.settle_folder(folder.as_str())?;
            self.forget(folder.as_str());
        }
        self.settled = true;
        Ok(())
    }

    /// Makes the names last in each folder where this object may have changed some, in the order in which they were last
    /// changed. The first time it does so before in all folders of the store, the one that it is in and the one above that, since a
    /// process that was stopped may have changed names there that nobody made to last. What failed is done again the next time.
    pub fn settle(&mut self) -> io::Result<()> {
        if !self.settled {
            self.settle_all()?;
        }
        for (_, folder) in self.changed.iter() {
            self.settle_folder(folder.as_str())?;
        }
        self.changed = BTreeMap::new(self.rt.alloc());
        self.places = BTreeMap::new(self.rt.alloc());
        Ok(())
    }
}
