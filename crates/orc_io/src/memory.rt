mod fault_plan;
mod file_table;
mod mem_files;
mod mem_sink;
mod mem_source;
mod sure_files;
mod sure_sink;
mod sure_source;

pub use fault_plan::FaultPlan;
pub use mem_files::MemFiles;
pub use mem_sink::MemSink;
pub use mem_source::MemSource;
pub use sure_files::SureFiles;
pub use sure_sink::SureSink;
pub use sure_source::SureSource;
