//! The keeper over a connection.
ghost use Rattle.std.specs.Prelude.{◌≡◌, ◌↔◌, ◌≤◌, true, false, if◌then◌else◌, Result, [], Err, IsTrue, IsErrOf, IfOk, IfErr, OnOk, OnErr};
ghost use Rattle.std.specs.FinMap.{get, keys};
ghost use Rattle.sqlite.specs.State.{HasCleanDisk};
ghost use Rattle.sqlite.specs.Held.{state};
ghost use Rattle.sqlite_trees.specs.View.{doubt};
ghost use Rattle.budget_ports.specs.Faults.{count_after};
ghost use Rattle.budget_ports.specs.Keeper.{has_failed, Commits, IsAlone, IsKnown, LeavesNoMore, Rise, HaveKeys};
ghost use Rattle.budget_ports.specs.Contents.{records_after, appended, with_text};
ghost use Rattle.budget_ports.specs.declared.keeper.PortFault.TheVariants.{Failed as HasFailed};
ghost use Rattle.sqlite_keeper.specs.Contents.{Contents, Sound, contents_now};
ghost use Rattle.sqlite_keeper.specs.Keeping.{TellsAll, MayBeLeft};
ghost use Rattle.sqlite_keeper.specs.Adopting.{IsInOrder, MayBecome, HasReason, IsStopped, LeavesOr};
ghost use Rattle.sqlite_keeper.specs.Adopted.{IsTaken, IsGivenBack};

use crate::adopting::{is_memory, try_version};
use crate::layout::{is_blank, is_first, is_ours};
use crate::making::make;
use crate::reading::{try_get, try_names, try_since};
use crate::writing::{try_append, try_put};
use budget_ports::{Keeper, PortFault, Record};
use field_values::{Items, Txt};
use sqlite::{Alter, Connection, Error, ErrorCode};
use std::alloc::Global;
use std::marker::Model;

/// A keeper over a connection to a store with the keeper's tables.
///
/// It tells its contents while it is not shut, its tables are the keeper's alone, and the connection
/// is open over a disk that has returned what was written. A shut keeper tells nothing and
/// fails at each call.
#[derive(Drop)]
pub struct SqliteKeeper<S: Alter> {
    conn: Connection<S>,
    alloc: Global,
    is_shut: bool,
    is_ours: bool,
    faults: u64,
}

impl<S: Alter> Model for SqliteKeeper<S> {
    ghost use Rattle.std.specs.Prelude.{◌≡◌, true, false};
    ghost use Rattle.sqlite_keeper.specs.Keeping.{Keeping, keeping_code};
    ghost use Rattle.sqlite_keeper.specs.Contents.{Sound};

    ghost Value = { Keeping S };

    ghost coded = { keeping_code S.code };

    ghost view = { λ k. record { conn = k.conn; is_shut = k.is_shut; is_ours = k.is_ours; faults = k.faults } };

    ghost invariant = { λ k. k.is_shut ≡ false → k.is_ours ≡ true → Sound S.Store k.conn };
}

/// Want of memory is told as such, and any other refusal is counted.
fn refuse(faults: &mut u64, error: Error) -> PortFault
    ensures count { faults.new ≡ count_after (has_failed {T = Unit {0}} (Err result)) faults.old }
    ensures told { (result ≡ PortFault.NoMemory) ↔ (error ≡ Error.SqliteFailure ErrorCode.OutOfMemory) }
{
    if is_memory(&error) {
        return PortFault::NoMemory;
    }
    *faults = faults.saturating_add(1);
    PortFault::Failed
}

/// Why a store was not taken.
#[derive(Debug, Drop)]
pub enum AdoptFault {
    /// It is of another version, or of one that it does not tell: then `found` is empty.
    Version {
        /// The text `version` of the store.
        found: Txt,
    },
    /// It has other tables, and with them it refuses what makes it a store of this version.
    Refused {
        /// Why the statement was refused.
        error: Error,
    },
    /// There was not enough memory.
    NoMemory,
}

/// A store that was not taken: why, and its connection, outside a transaction.
#[derive(Drop)]
pub struct Unadopted<S: Alter> {
    /// Why it was not taken.
    pub fault: AdoptFault,
    /// The connection: while it is open, with the contents that it had.
    pub connection: Connection<S>,
}

impl<S: Alter> SqliteKeeper<S> {
    /// Takes a store: one of this version as it is, one of the version before as one of this, and where it has no tables it makes them.
    ///
    /// The first statement asks for the text `version`. Where it is `2` the store is taken. Where it is `1`, one commit makes the
    /// tables of this version, copies each record, empties the table of the version before and puts `2`. Where the text is another,
    /// or there is none, the fault tells it. Where the connection refuses the statement and the store lacks the tables of both
    /// versions, those of this one and the text `version` are made in one commit. Where it has them, or what is to be made is refused
    /// as well, the keeper is shut, its count is 1, and the contents are as before while the connection is open. A refusal over tables
    /// of no version is a fault instead, and so is want of memory.
    ///
    /// Over an open connection to a store of this version, or to one where nothing is listed, a keeper is shut only if the disk failed
    /// or returned something else, a limit was set on the steps of a query, or the store tells the version before. What `in_order`
    /// gives is what `ordered` asks, and so is what an open of files gives.
    pub fn adopt(alloc: Global, connection: Connection<S>) -> Result<SqliteKeeper<S>, Unadopted<S>>
        requires idle { connection.in_transaction ≡ false }
        requires ordered { IsInOrder S.Store connection }
        ensures taken { IfOk result (IsTaken S.Store connection) }
        ensures back { IfErr result (λ u. IsGivenBack S.Store connection u.fault u.connection) }
    {
        let mut connection = connection;
        let _settled = connection.is_autocommit();
        let has_tables = is_ours(connection.schema());
        let is_before = is_first(connection.schema());
        let is_new = is_blank(connection.schema());
        match try_version(alloc, &mut connection) {
            Ok(found) => {
                if found.as_str() == "2" {
                    return Ok(SqliteKeeper::over(alloc, connection, has_tables));
                }
                if found.as_str() != "1" {
                    let fault = AdoptFault::Version { found };
                    return Err(Unadopted { fault, connection });
                }
                if has_tables {
                    return Ok(SqliteKeeper::shut(alloc, connection));
                }
                SqliteKeeper::begin(alloc, connection, false, is_before)
            }
            Err(error) => {
                if is_memory(&error) {
                    let fault = AdoptFault::NoMemory;
                    return Err(Unadopted { fault, connection });
                }
                if has_tables {
                    return Ok(SqliteKeeper::shut(alloc, connection));
                }
                if is_before {
                    return Ok(SqliteKeeper::shut(alloc, connection));
                }
                SqliteKeeper::begin(alloc, connection, true, is_new)
            }
        }
    }

    /// A keeper that fails at each call, and has failed once.
    fn shut(alloc: Global, connection: Connection<S>) -> SqliteKeeper<S>
        ensures { result ≡ record { conn = connection; is_shut = true; is_ours = false; faults = 1 } }
    {
        SqliteKeeper {
            conn: connection,
            alloc,
            is_shut: true,
            is_ours: false,
            faults: 1,
        }
    }

    /// A keeper that has not failed.
    fn over(alloc: Global, connection: Connection<S>, is_ours: bool) -> SqliteKeeper<S>
        requires { IsTrue is_ours → Sound S.Store connection }
        ensures { result ≡ record { conn = connection; is_shut = false; is_ours = is_ours; faults = 0 } }
    {
        SqliteKeeper {
            conn: connection,
            alloc,
            is_shut: false,
            is_ours,
            faults: 0,
        }
    }

    /// Makes a store what it becomes, and takes it.
    fn begin(
        alloc: Global,
        connection: Connection<S>,
        is_new: bool,
        is_known: bool,
    ) -> Result<SqliteKeeper<S>, Unadopted<S>>
        requires idle { connection.in_transaction ≡ false }
        requires known { IsTrue is_known → (c : Contents) × MayBecome S.Store is_new connection c }
        ensures count { IfOk result (λ k. k.faults ≡ (if k.is_shut then 1 else 0)) }
        ensures made { IfOk result (λ k. (c : Contents) → MayBecome S.Store is_new connection c → k.is_shut ≡ false → HasCleanDisk (state S.Store k.conn) → IsTrue (state S.Store k.conn).is_open × (contents_now S.Store k.conn ≡ c)) }
        ensures emptied { IfOk result (λ k. is_new ≡ false → (c : Contents) → MayBecome S.Store false connection c → k.is_shut ≡ false → HasCleanDisk (state S.Store k.conn) → (state S.Store k.conn).now.trees 0 ≡ []) }
        ensures alone { IfOk result (λ k. IsAlone (TellsAll S.Store k) (contents_now S.Store k.conn) (MayBeLeft S.Store k)) }
        ensures ours { IfOk result (λ k. k.is_shut ≡ false → k.is_ours ≡ is_known) }
        ensures shut_ours { IfOk result (λ k. k.is_shut ≡ true → k.is_ours ≡ false) }
        ensures shut { IfOk result (λ k. k.is_shut ≡ true → (c : Contents) → MayBecome S.Store is_new connection c → HasCleanDisk (state S.Store k.conn) → IsTrue (state S.Store k.conn).is_open → ((state S.Store k.conn).now ≡ (state S.Store connection).now) × IsTrue (state S.Store connection).is_open) }
        ensures known { IfOk result (λ k. k.is_shut ≡ true → is_known ≡ true) }
        ensures reason { IfOk result (λ k. k.is_shut ≡ true → IsTrue is_new → (c : Contents) → MayBecome S.Store true connection c → IsTrue (state S.Store connection).is_open → HasCleanDisk (state S.Store k.conn) → HasReason (state S.Store connection) (state S.Store k.conn)) }
        ensures opened { IfOk result (λ k. k.is_shut ≡ false → HasCleanDisk (state S.Store k.conn) → IsTrue (state S.Store connection).is_open) }
        ensures counts { IfOk result (λ k. (state S.Store connection).faults ≤ (state S.Store k.conn).faults) }
        ensures left { IfOk result (λ k. (c : Contents) → MayBecome S.Store is_new connection c → HasCleanDisk (state S.Store k.conn) → LeavesOr S.Store c connection k.conn) }
        ensures left_back { IfErr result (λ u. (c : Contents) → MayBecome S.Store is_new connection c → HasCleanDisk (state S.Store u.connection) → LeavesOr S.Store c connection u.connection) }
        ensures fault { IfErr result (λ u. IsStopped is_known u.fault) }
        ensures idle { IfErr result (λ u. u.connection.in_transaction ≡ false) }
        ensures same { IfErr result (λ u. (c : Contents) → MayBecome S.Store is_new connection c → HasCleanDisk (state S.Store u.connection) → IsTrue (state S.Store u.connection).is_open → (state S.Store u.connection).now ≡ (state S.Store connection).now) }
        ensures told { IfErr result (λ u. HasCleanDisk (state S.Store u.connection) → IsTrue (state S.Store u.connection).is_open → IsTrue (state S.Store connection).is_open) }
        ensures clean { IfErr result (λ u. doubt (state S.Store connection).is_clean ≤ doubt (state S.Store u.connection).is_clean) }
        ensures ok_clean { IfOk result (λ k. doubt (state S.Store connection).is_clean ≤ doubt (state S.Store k.conn).is_clean) }
    {
        let mut connection = connection;
        match make(&mut connection, is_new) {
            Ok(()) => Ok(SqliteKeeper::over(alloc, connection, is_known)),
            Err(error) => {
                if is_memory(&error) {
                    let fault = AdoptFault::NoMemory;
                    return Err(Unadopted { fault, connection });
                }
                if !is_known {
                    let fault = AdoptFault::Refused { error };
                    return Err(Unadopted { fault, connection });
                }
                Ok(SqliteKeeper::shut(alloc, connection))
            }
        }
    }

    /// Whether the keeper is shut: it tells nothing then, and each call fails.
    pub fn is_shut(&self) -> bool
        ensures { result ≡ self.now.is_shut }
    {
        self.is_shut
    }

    /// The connection.
    pub fn into_connection(self) -> Connection<S>
        ensures { result ≡ self.conn }
    {
        self.conn
    }
}

impl<S: Alter> Keeper for SqliteKeeper<S> {
    ghost tells = { TellsAll S.Store };

    ghost contents = { λ k. contents_now S.Store k.conn };

    ghost left = { MayBeLeft S.Store };

    ghost faults = { λ k. k.faults };

    fn append(&mut self, group: &Txt, batch: &[Record]) -> Result<(), PortFault>
        requires { HaveKeys batch.now }

        // what each keeper promises
        ensures told { TellsAll S.Store self.new → TellsAll S.Store self.old }
        ensures ok { TellsAll S.Store self.new → OnOk result (contents_now S.Store self.new.conn ≡ appended (contents_now S.Store self.old.conn) group.now batch.now) }
        ensures err { TellsAll S.Store self.new → OnErr result (contents_now S.Store self.new.conn ≡ contents_now S.Store self.old.conn) }
        ensures left { Commits (TellsAll S.Store self.old) (MayBeLeft S.Store self.old) (MayBeLeft S.Store self.new) (appended (contents_now S.Store self.old.conn) group.now batch.now) }
        ensures alone { OnOk result (IsAlone (TellsAll S.Store self.new) (contents_now S.Store self.new.conn) (MayBeLeft S.Store self.new)) }
        ensures here { TellsAll S.Store self.new → MayBeLeft S.Store self.new (contents_now S.Store self.new.conn) }
        ensures count { self.new.faults ≡ count_after (has_failed result) self.old.faults }

        // what this one does
        ensures fails { self.old.is_shut ≡ true → IsErrOf result HasFailed }
        ensures stays { self.old.is_shut ≡ true → self.new ≡ record self.old { faults = count_after true self.old.faults } }
    {
        if self.is_shut {
            self.faults = self.faults.saturating_add(1);
            return Err(PortFault::Failed);
        }
        match try_append(&mut self.conn, group, batch) {
            Ok(()) => Ok(()),
            Err(error) => Err(refuse(&mut self.faults, error)),
        }
    }

    fn since(&mut self, group: &Txt, after: &Txt) -> Result<Items<Record>, PortFault>
        // what each keeper promises
        ensures told { TellsAll S.Store self.new → TellsAll S.Store self.old }
        ensures records { TellsAll S.Store self.new → IfOk result (λ rs. rs ≡ records_after (contents_now S.Store self.old.conn) group.now after.now) }
        ensures rise { IfOk result Rise }
        ensures same { TellsAll S.Store self.new → contents_now S.Store self.new.conn ≡ contents_now S.Store self.old.conn }
        ensures left { LeavesNoMore (MayBeLeft S.Store self.old) (MayBeLeft S.Store self.new) }
        ensures known { OnOk result (IsKnown (TellsAll S.Store self.new) (MayBeLeft S.Store self.new)) }
        ensures here { TellsAll S.Store self.new → MayBeLeft S.Store self.new (contents_now S.Store self.new.conn) }
        ensures count { self.new.faults ≡ count_after (has_failed result) self.old.faults }

        // what this one does
        ensures fails { self.old.is_shut ≡ true → IsErrOf result HasFailed }
        ensures stays { self.old.is_shut ≡ true → self.new ≡ record self.old { faults = count_after true self.old.faults } }
    {
        if self.is_shut {
            self.faults = self.faults.saturating_add(1);
            return Err(PortFault::Failed);
        }
        match try_since(self.alloc, &mut self.conn, group, after) {
            Ok(records) => Ok(records),
            Err(error) => Err(refuse(&mut self.faults, error)),
        }
    }

    fn put(&mut self, name: &Txt, text: &Txt) -> Result<(), PortFault>
        // what each keeper promises
        ensures told { TellsAll S.Store self.new → TellsAll S.Store self.old }
        ensures ok { TellsAll S.Store self.new → OnOk result (contents_now S.Store self.new.conn ≡ with_text (contents_now S.Store self.old.conn) name.now text.now) }
        ensures err { TellsAll S.Store self.new → OnErr result (contents_now S.Store self.new.conn ≡ contents_now S.Store self.old.conn) }
        ensures left { Commits (TellsAll S.Store self.old) (MayBeLeft S.Store self.old) (MayBeLeft S.Store self.new) (with_text (contents_now S.Store self.old.conn) name.now text.now) }
        ensures alone { OnOk result (IsAlone (TellsAll S.Store self.new) (contents_now S.Store self.new.conn) (MayBeLeft S.Store self.new)) }
        ensures here { TellsAll S.Store self.new → MayBeLeft S.Store self.new (contents_now S.Store self.new.conn) }
        ensures count { self.new.faults ≡ count_after (has_failed result) self.old.faults }

        // what this one does
        ensures fails { self.old.is_shut ≡ true → IsErrOf result HasFailed }
        ensures stays { self.old.is_shut ≡ true → self.new ≡ record self.old { faults = count_after true self.old.faults } }
    {
        if self.is_shut {
            self.faults = self.faults.saturating_add(1);
            return Err(PortFault::Failed);
        }
        match try_put(&mut self.conn, name.as_str(), text.as_str()) {
            Ok(()) => Ok(()),
            Err(error) => Err(refuse(&mut self.faults, error)),
        }
    }

    fn get(&mut self, name: &Txt) -> Result<Option<Txt>, PortFault>
        // what each keeper promises
        ensures told { TellsAll S.Store self.new → TellsAll S.Store self.old }
        ensures text { TellsAll S.Store self.new → IfOk result (λ text. text ≡ get (contents_now S.Store self.old.conn).texts name.now) }
        ensures same { TellsAll S.Store self.new → contents_now S.Store self.new.conn ≡ contents_now S.Store self.old.conn }
        ensures left { LeavesNoMore (MayBeLeft S.Store self.old) (MayBeLeft S.Store self.new) }
        ensures known { OnOk result (IsKnown (TellsAll S.Store self.new) (MayBeLeft S.Store self.new)) }
        ensures here { TellsAll S.Store self.new → MayBeLeft S.Store self.new (contents_now S.Store self.new.conn) }
        ensures count { self.new.faults ≡ count_after (has_failed result) self.old.faults }

        // what this one does
        ensures fails { self.old.is_shut ≡ true → IsErrOf result HasFailed }
        ensures stays { self.old.is_shut ≡ true → self.new ≡ record self.old { faults = count_after true self.old.faults } }
    {
        if self.is_shut {
            self.faults = self.faults.saturating_add(1);
            return Err(PortFault::Failed);
        }
        match try_get(&mut self.conn, name) {
            Ok(text) => Ok(text),
            Err(error) => Err(refuse(&mut self.faults, error)),
        }
    }

    fn names(&mut self) -> Result<Items<Txt>, PortFault>
        // what each keeper promises
        ensures told { TellsAll S.Store self.new → TellsAll S.Store self.old }
        ensures names { TellsAll S.Store self.new → IfOk result (λ names. names ≡ keys (contents_now S.Store self.old.conn).texts) }
        ensures same { TellsAll S.Store self.new → contents_now S.Store self.new.conn ≡ contents_now S.Store self.old.conn }
        ensures left { LeavesNoMore (MayBeLeft S.Store self.old) (MayBeLeft S.Store self.new) }
        ensures known { OnOk result (IsKnown (TellsAll S.Store self.new) (MayBeLeft S.Store self.new)) }
        ensures here { TellsAll S.Store self.new → MayBeLeft S.Store self.new (contents_now S.Store self.new.conn) }
        ensures count { self.new.faults ≡ count_after (has_failed result) self.old.faults }

        // what this one does
        ensures fails { self.old.is_shut ≡ true → IsErrOf result HasFailed }
        ensures stays { self.old.is_shut ≡ true → self.new ≡ record self.old { faults = count_after true self.old.faults } }
    {
        if self.is_shut {
            self.faults = self.faults.saturating_add(1);
            return Err(PortFault::Failed);
        }
        match try_names(self.alloc, &mut self.conn) {
            Ok(names) => Ok(names),
            Err(error) => Err(refuse(&mut self.faults, error)),
        }
    }
}
