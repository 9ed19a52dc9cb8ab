//! The items of several fields that stand in the lists of these commands.

ghost use Rattle.frame_wire.specs.Formats.{u16_field, u32_field, i64_field, text_field};
ghost use Rattle.frame_wire.specs.Items.{same_fault};
ghost use Rattle.frame_wire.specs.Joins.{◌then◌, list};
ghost use Rattle.command_fields.specs.Sizes.{Measures};

use command_fields::{GREATEST_BODY, Measured, list_size};
use frame_wire::{
    Item, Octets, ReadError, Row, Scan, Text, put_i64, put_list, put_text, put_u16, put_u32,
    read_list,
};
use std::alloc::{AllocError, Global};

/// A broker of a metadata answer.
#[derive(Debug, Drop)]
pub struct Broker {
    /// The number by which the streams of the answer name it.
    pub reference: u16,
    pub host: Text,
    pub port: u32,
}

impl Item for Broker {
    ghost use Rattle.command_admin.specs.Items.{broker_field};

    ghost format = { broker_field };

    fn read(alloc: Global, scan: &mut Scan<'_>) -> Result<Broker, ReadError> {
        let reference = scan.u16()?;
        let host = Text::read(alloc, scan)?;
        let port = scan.u32()?;
        Ok(Broker {
            reference,
            host,
            port,
        })
    }

    fn put(&self, out: &mut Octets) -> Result<(), AllocError> {
        put_u16(out, self.reference)?;
        put_text(out, &self.host)?;
        put_u32(out, self.port)
    }
}

#[tactic(auto, using(command_fields::proofs::SizeLaws::lengths))]
fn broker_size(reference: u16, host: &Text, port: u32) -> Option<u64>
    ensures { Measures (u16_field then text_field then u32_field) (reference, (host.now, port)) result }
{
    let size = 6 + host.size()?;
    (size <= GREATEST_BODY).then_some(size)
}

impl Measured for Broker {
    fn size(&self) -> Option<u64> {
        broker_size(self.reference, &self.host, self.port)
    }
}

/// Where a stream is, in a metadata answer.
#[derive(Debug, Drop)]
pub struct StreamMetadata {
    pub stream: Text,
    /// 1 where the stream is there, else why nothing is told of it.
    pub code: u16,
    /// The reference of the broker that leads.
    pub leader: u16,
    /// The references of the brokers that follow.
    pub replicas: Row<u16>,
}

impl Item for StreamMetadata {
    ghost use Rattle.command_admin.specs.Items.{metadata_field};

    ghost format = { metadata_field };

    fn read(alloc: Global, scan: &mut Scan<'_>) -> Result<StreamMetadata, ReadError> {
        let stream = Text::read(alloc, scan)?;
        let code = scan.u16()?;
        let leader = scan.u16()?;
        let replicas = read_list(alloc, scan)?;
        Ok(StreamMetadata {
            stream,
            code,
            leader,
            replicas,
        })
    }

    fn put(&self, out: &mut Octets) -> Result<(), AllocError> {
        put_text(out, &self.stream)?;
        put_u16(out, self.code)?;
        put_u16(out, self.leader)?;
        put_list(out, &self.replicas)
    }
}

#[tactic(auto, using(command_fields::proofs::SizeLaws::lengths))]
fn metadata_size(stream: &Text, code: u16, leader: u16, replicas: &Row<u16>) -> Option<u64>
    ensures { Measures (text_field then u16_field then u16_field then list same_fault u16_field) (stream.now, (code, (leader, replicas.now))) result }
{
    let size = 4 + stream.size()? + list_size(replicas)?;
    (size <= GREATEST_BODY).then_some(size)
}

impl Measured for StreamMetadata {
    fn size(&self) -> Option<u64> {
        metadata_size(&self.stream, self.code, self.leader, &self.replicas)
    }
}

/// The versions of one command that a peer takes, the least and the greatest.
#[derive(Clone, Copy, Debug, PartialEq, Eq)]
pub struct KeyVersions {
    pub key: u16,
    pub least: u16,
    pub greatest: u16,
}

impl Item for KeyVersions {
    ghost use Rattle.command_admin.specs.Items.{versions_field};

    ghost format = { versions_field };

    fn read(_alloc: Global, scan: &mut Scan<'_>) -> Result<KeyVersions, ReadError> {
        let key = scan.u16()?;
        let least = scan.u16()?;
        let greatest = scan.u16()?;
        Ok(KeyVersions {
            key,
            least,
            greatest,
        })
    }

    fn put(&self, out: &mut Octets) -> Result<(), AllocError> {
        put_u16(out, self.key)?;
        put_u16(out, self.least)?;
        put_u16(out, self.greatest)
    }
}

#[tactic(auto, using(command_fields::proofs::SizeLaws::lengths))]
fn versions_size(key: u16, least: u16, greatest: u16) -> Option<u64>
    ensures { Measures (u16_field then u16_field then u16_field) (key, (least, greatest)) result }
{
    Some(6)
}

impl Measured for KeyVersions {
    fn size(&self) -> Option<u64> {
        versions_size(self.key, self.least, self.greatest)
    }
}

/// A number that tells of a stream, by its name.
#[derive(Debug, Drop)]
pub struct Statistic {
    pub name: Text,
    pub value: i64,
}

impl Item for Statistic {
    ghost use Rattle.command_admin.specs.Items.{statistic_field};

    ghost format = { statistic_field };

    fn read(alloc: Global, scan: &mut Scan<'_>) -> Result<Statistic, ReadError> {
        let name = Text::read(alloc, scan)?;
        let value = scan.i64()?;
        Ok(Statistic { name, value })
    }

    fn put(&self, out: &mut Octets) -> Result<(), AllocError> {
        put_text(out, &self.name)?;
        put_i64(out, self.value)
    }
}

#[tactic(auto, using(command_fields::proofs::SizeLaws::lengths))]
fn statistic_size(name: &Text, value: i64) -> Option<u64>
    ensures { Measures (text_field then i64_field) (name.now, value) result }
{
    let size = 8 + name.size()?;
    (size <= GREATEST_BODY).then_some(size)
}

impl Measured for Statistic {
    fn size(&self) -> Option<u64> {
        statistic_size(&self.name, self.value)
    }
}
