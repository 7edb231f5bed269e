//! The engine's state. Nothing cited here names the type, so that definitions above may.
use limit::joined::Joined;
use limit::methods::{Industrial, Station};
use register::table::Register;

/// A register with the industrial method for plants and the station method for stations.
#[derive(Drop)]
pub struct Engine {
    pub(crate) register: Register<Joined<Industrial, Station>>,
}
