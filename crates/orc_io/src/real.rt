mod folder_files;
mod std_sink;
mod std_source;

pub use folder_files::FolderFiles;
pub use std_sink::StdSink;
pub use std_source::StdSource;
