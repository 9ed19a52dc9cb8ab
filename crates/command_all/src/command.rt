use command_admin::AdminCommand;
use command_data::DataCommand;

/// A command of the protocol, in version 1, but for the second version of a delivery.
#[derive(Debug, Drop)]
pub enum Command {
    /// Keys 0x0001 to 0x000c and their answers: publishing, subscriptions, deliveries and offsets.
    Data(DataCommand),
    /// Keys 0x000d to 0x001e and their answers: streams, the opening of a connection, routes and versions.
    Admin(AdminCommand),
}
