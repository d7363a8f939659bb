//! Devices by their names, and the file that gives each of them a validator.

mod fault;
mod numbering;
mod reading;
mod table;

pub use fault::{DevicesFault, WrongDevice};
pub use numbering::number_devices;
pub use reading::read_devices;
pub use table::{DeviceTable, device_text};
