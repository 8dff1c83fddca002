ghost use Rattle.std.specs.Prelude.{◌≡◌};

use pfc_base::Path;
use pfc_client::Reply;
use pfc_log::FileLog;
use std::marker::Model;

/// Replies in the order of the requests, which contracts see as a list.
#[derive(Drop)]
pub struct Replies {
    replies: Vec<Reply>,
}

impl Model for Replies {
    ghost use Rattle.std.specs.Prelude.{List};
    ghost use Rattle.pfc_client.specs.declared.reply.Reply.{Reply};

    ghost Value = { List Reply };

    ghost view = { λ r. r.replies.items };
}

impl Replies {
    pub fn new(replies: Vec<Reply>) -> Replies
        ensures { result ≡ replies.items }
    {
        Replies { replies }
    }

    pub fn as_slice(&self) -> &[Reply]
        ensures { result.now ≡ self.now }
    {
        &self.replies
    }
}

/// What one client was told.
#[derive(Drop)]
pub struct Told {
    /// The client's number, from 1 to 64.
    pub number: u32,
    /// A reply to each of its requests, in order.
    pub replies: Replies,
}

/// The log of one file's core, from its start to its end.
#[derive(Drop)]
pub struct Section {
    /// The file's path.
    pub path: Path,
    pub log: FileLog,
}

/// What a run comes to: what each client was told, in order of number, and the logs in order of the cores' instance numbers.
#[derive(Drop)]
pub struct Report {
    clients: Vec<Told>,
    logs: Vec<Section>,
}

impl Model for Report {
    ghost use Rattle.pfc_report.specs.Report.{ReportView};

    ghost Value = { ReportView };

    ghost view = { λ r. record { clients = r.clients.items; logs = r.logs.items } };
}

impl Report {
    pub fn new(clients: Vec<Told>, logs: Vec<Section>) -> Report
        ensures { result ≡ record { clients = clients.items; logs = logs.items } }
    {
        Report { clients, logs }
    }

    /// What each client that was asked anything was told.
    pub fn clients(&self) -> &[Told]
        ensures { result.now ≡ self.now.clients }
    {
        &self.clients
    }

    /// The logs.
    pub fn logs(&self) -> &[Section]
        ensures { result.now ≡ self.now.logs }
    {
        &self.logs
    }
}
