//! The container of a program database: pages, and the streams that lie scattered over them.
#![tactic(auto)]

mod directory;
mod file_source;
mod header;
mod in_place;
pub mod laws;
mod layout;
mod magic;
mod msf;
mod outside;
mod page_list;
mod read_at;
mod scattered;
mod seek_file;
mod source;

pub use file_source::{FileSource, open_path};
pub use header::Header;
pub use layout::Layout;
pub use magic::{big, small};
pub use msf::{BigMSF, Msf, open_msf};
pub use outside::comes_from_outside;
pub use page_list::PageList;
pub use read_at::ReadAt;
pub use scattered::CountedSource;
pub use seek_file::SeekFile;
pub use source::{ReadView, Source, SourceSlice, SourceView};
