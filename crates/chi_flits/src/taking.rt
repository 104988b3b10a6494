//! How a port takes a flit of each kind.

ghost use Rattle.std.specs.Prelude.{◌≡◌, ◌≢◌, Some, IfErr, IfOk};
ghost use Rattle.chi_flits.specs.Effects.{IsTaken, transaction_in, transfer_in};
ghost use Rattle.chi_flits.specs.Faults.{fault_with};
ghost use Rattle.chi_flits.specs.Answers.{key as key_of};
ghost use Rattle.chi_flits.specs.declared.flit.FlitKind.{FlitKind};
ghost use Rattle.chi_flits.specs.declared.fault.FlitFault.{FlitFault};

use crate::answer::key;
use crate::fault::FlitFault;
use crate::flit::{DataFlit, FlitKind, RequestFlit, ResponseFlit};
use crate::port::Port;
use crate::read_faults::read_fault;
use crate::response_faults::{request_fault, response_fault};
use crate::told_answers::{told_of_read, told_of_response};
use crate::told_data::told_of_write;
use crate::told_requests::told_of_request;
use crate::transaction::Transaction;
use crate::transfer::Transfer;
use crate::write_faults::write_fault;
use chi_events::EventKind;
use std::alloc::Global;

impl Port {
    /// What is known of a TxnID.
    fn transaction(&self, node: u16, txn: u16) -> Option<Transaction>
        ensures { result ≡ transaction_in self.now (key_of node txn) }
    {
        self.transactions.get(&key(node, txn)).copied()
    }

    /// What is known of a DBID.
    fn transfer(&self, node: u16, dbid: u16) -> Option<Transfer>
        ensures { result ≡ transfer_in self.now (key_of node dbid) }
    {
        self.transfers.get(&key(node, dbid)).copied()
    }

    /// Takes a request.
    fn take_request(
        &mut self,
        alloc: Global,
        request: &RequestFlit,
    ) -> Result<Vec<EventKind>, FlitFault>
        ensures taken { IfOk result (λ told. IsTaken (FlitKind.Request request.now) self.old told.items self.new) }
        ensures fault { IfErr result (λ fault. fault ≢ FlitFault.Memory → fault_with (transaction_in self.old) (transfer_in self.old) (FlitKind.Request request.now) ≡ Some fault) }
        ensures failed { IfErr result (λ _. self.new ≡ self.old) }
    {
        let held = self.transaction(request.src, request.txn);
        if let Some(fault) = request_fault(request, &held) {
            return Err(fault);
        }
        let told = told_of_request(alloc, self.count, request)?;
        self.note_request(request)?;
        Ok(told)
    }

    /// Takes a response.
    fn take_response(
        &mut self,
        alloc: Global,
        response: &ResponseFlit,
    ) -> Result<Vec<EventKind>, FlitFault>
        ensures taken { IfOk result (λ told. IsTaken (FlitKind.Response response.now) self.old told.items self.new) }
        ensures fault { IfErr result (λ fault. fault ≢ FlitFault.Memory → fault_with (transaction_in self.old) (transfer_in self.old) (FlitKind.Response response.now) ≡ Some fault) }
        ensures failed { IfErr result (λ _. self.new ≡ self.old) }
    {
        let held = self.transaction(response.tgt, response.txn);
        let given = self.transfer(response.tgt, response.dbid);
        if let Some(fault) = response_fault(response, &held, &given) {
            return Err(fault);
        }
        let Some(transaction) = &held else {
            return Ok(Vec::new(alloc));
        };
        let told = told_of_response(alloc, response, transaction)?;
        self.note_answer(response, transaction)?;
        Ok(told)
    }

    /// Takes data from the home.
    fn take_read(&mut self, alloc: Global, flit: &DataFlit) -> Result<Vec<EventKind>, FlitFault>
        ensures taken { IfOk result (λ told. IsTaken (FlitKind.ReadData flit.now) self.old told.items self.new) }
        ensures fault { IfErr result (λ fault. fault ≢ FlitFault.Memory → fault_with (transaction_in self.old) (transfer_in self.old) (FlitKind.ReadData flit.now) ≡ Some fault) }
        ensures failed { IfErr result (λ _. self.new ≡ self.old) }
    {
        let held = self.transaction(flit.node, flit.txn);
        if let Some(fault) = read_fault(flit, &held) {
            return Err(fault);
        }
        let told = match &held {
            Some(transaction) => told_of_read(alloc, flit, transaction)?,
            None => Vec::new(alloc),
        };
        self.note_read(flit);
        Ok(told)
    }

    /// Takes data to the home.
    fn take_write(&mut self, alloc: Global, flit: &DataFlit) -> Result<Vec<EventKind>, FlitFault>
        ensures taken { IfOk result (λ told. IsTaken (FlitKind.WriteData flit.now) self.old told.items self.new) }
        ensures fault { IfErr result (λ fault. fault ≢ FlitFault.Memory → fault_with (transaction_in self.old) (transfer_in self.old) (FlitKind.WriteData flit.now) ≡ Some fault) }
        ensures failed { IfErr result (λ _. self.new ≡ self.old) }
    {
        let held = self.transfer(flit.node, flit.txn);
        if let Some(fault) = write_fault(flit, &held) {
            return Err(fault);
        }
        let told = match &held {
            Some(transfer) => told_of_write(alloc, flit, transfer)?,
            None => Vec::new(alloc),
        };
        self.note_write(flit, &held);
        Ok(told)
    }

    /// Takes a flit of a kind.
    pub(crate) fn take_kind(
        &mut self,
        alloc: Global,
        kind: &FlitKind,
    ) -> Result<Vec<EventKind>, FlitFault>
        ensures taken { IfOk result (λ told. IsTaken kind.now self.old told.items self.new) }
        ensures fault { IfErr result (λ fault. fault ≢ FlitFault.Memory → fault_with (transaction_in self.old) (transfer_in self.old) kind.now ≡ Some fault) }
        ensures failed { IfErr result (λ _. self.new ≡ self.old) }
    {
        match kind {
            FlitKind::Request(request) => self.take_request(alloc, request),
            FlitKind::Response(response) => self.take_response(alloc, response),
            FlitKind::ReadData(flit) => self.take_read(alloc, flit),
            FlitKind::WriteData(flit) => self.take_write(alloc, flit),
        }
    }
}
