use std::alloc::{AllocError, Global};

/// The files of a block by name, in the order in which they were written.
#[derive(Drop)]
pub struct Shelf {
    files: Vec<(String, Vec<u8>)>,
}

impl Shelf {
    pub fn new(alloc: Global) -> Shelf {
        Shelf {
            files: Vec::new(alloc),
        }
    }

    pub fn add(&mut self, name: &str, bytes: Vec<u8>) -> Result<(), AllocError> {
        let alloc = *self.files.allocator();
        self.files.push((String::from_str(alloc, name)?, bytes))?;
        Ok(())
    }

    /// The file that was written last.
    pub fn last(&mut self) -> Option<&mut Vec<u8>> {
        let (_, bytes) = self.files.last_mut()?;
        Some(bytes)
    }

    pub fn get(&self, name: &str) -> Option<&[u8]> {
        for (key, bytes) in &self.files {
            if key.as_str() == name {
                return Some(bytes.as_slice());
            }
        }
        None
    }

    pub fn copy(&self) -> Result<Vec<(String, Vec<u8>)>, AllocError> {
        self.files.clone()
    }

    /// A copy of the files, in which the named one is cut to so many bytes.
    pub fn copy_cut(&self, name: &str, len: usize) -> Result<Vec<(String, Vec<u8>)>, AllocError> {
        let mut copy = Vec::new(*self.files.allocator());
        for (key, bytes) in &self.files {
            let mut bytes = bytes.clone()?;
            if key.as_str() == name {
                bytes.truncate(len);
            }
            copy.push((key.clone()?, bytes))?;
        }
        Ok(copy)
    }
}
