//! What a port notes of the flits that it takes.

ghost use Rattle.std.specs.Prelude.{ℕ, ◌≡◌, Some, IfErr, IfOk, option_map};
ghost use Rattle.chi_flits.specs.Effects.{Knows, dropped_by, given_after, transaction_after, transaction_in, transfer_after, transfer_in};
ghost use Rattle.chi_flits.specs.Answers.{key as key_of};
ghost use Rattle.chi_flits.specs.declared.flit.FlitKind.{FlitKind};

use crate::answer::key;
use crate::effects::{begun, is_of, opened, with_read, with_response, with_write};
use crate::flit::{DataFlit, RequestFlit, ResponseFlit};
use crate::opcode::{gives_dbid, is_read_data, is_response, is_write_data, takes_txn};
use crate::port::Port;
use crate::transaction::Transaction;
use crate::transfer::Transfer;
use std::alloc::AllocError;

impl Port {
    /// Notes a request, where it takes a TxnID.
    pub(crate) fn note_request(&mut self, request: &RequestFlit) -> Result<(), AllocError>
        ensures knows { IfOk result (λ _. Knows (FlitKind.Request request.now) self.old self.new) }
        ensures count { self.new.count ≡ self.old.count }
        ensures time { self.new.time ≡ self.old.time }
        ensures failed { IfErr result (λ _. self.new ≡ self.old) }
    {
        if takes_txn(request.opcode) {
            let held = opened(self.count, request);
            self.transactions
                .insert(key(request.src, request.txn), held)?;
        }
        Ok(())
    }

    /// Notes the DBID that a response gives to a request.
    fn note_dbid(
        &mut self,
        response: &ResponseFlit,
        transaction: &Transaction,
    ) -> Result<(), AllocError>
        ensures transactions { IfOk result (λ _. self.new.transactions ≡ self.old.transactions) }
        ensures transfers { IfOk result (λ _. (d : ℕ) → transfer_in self.new d ≡ given_after response.now transaction.now d (transfer_in self.old d)) }
        ensures count { self.new.count ≡ self.old.count }
        ensures time { self.new.time ≡ self.old.time }
        ensures failed { IfErr result (λ _. self.new ≡ self.old) }
    {
        if gives_dbid(response.opcode) {
            let begun = begun(transaction);
            self.transfers
                .insert(key(response.tgt, response.dbid), begun)?;
        }
        Ok(())
    }

    /// Notes an answer to the request that holds a TxnID.
    fn note_response(&mut self, response: &ResponseFlit)
        ensures transactions { (k : ℕ) → transaction_in self.new k ≡ transaction_after (FlitKind.Response response.now) self.old.count (transfer_in self.old) k (transaction_in self.old k) }
        ensures transfers { self.new.transfers ≡ self.old.transfers }
        ensures count { self.new.count ≡ self.old.count }
        ensures time { self.new.time ≡ self.old.time }
    {
        if !is_response(response.opcode) {
            return;
        }
        if let Some(held) = self.transactions.get_mut(&key(response.tgt, response.txn)) {
            *held = with_response(held, response);
        }
    }

    /// Notes a response to the request that holds a TxnID.
    pub(crate) fn note_answer(
        &mut self,
        response: &ResponseFlit,
        transaction: &Transaction,
    ) -> Result<(), AllocError>
        requires held { transaction_in self.old (key_of response.now.tgt response.now.txn) ≡ Some transaction.now }
        ensures knows { IfOk result (λ _. Knows (FlitKind.Response response.now) self.old self.new) }
        ensures count { self.new.count ≡ self.old.count }
        ensures time { self.new.time ≡ self.old.time }
        ensures failed { IfErr result (λ _. self.new ≡ self.old) }
    {
        self.note_dbid(response, transaction)?;
        self.note_response(response);
        Ok(())
    }

    /// Notes data from the home.
    pub(crate) fn note_read(&mut self, flit: &DataFlit)
        ensures knows { Knows (FlitKind.ReadData flit.now) self.old self.new }
        ensures count { self.new.count ≡ self.old.count }
        ensures time { self.new.time ≡ self.old.time }
    {
        if !is_read_data(flit.opcode) {
            return;
        }
        if let Some(held) = self.transactions.get_mut(&key(flit.node, flit.txn)) {
            *held = with_read(held, flit);
        }
    }

    /// Notes that data to the home write nothing for the request to which they were sent.
    fn note_drop(&mut self, transfer: &Transfer)
        ensures transactions { (k : ℕ) → transaction_in self.new k ≡ option_map (dropped_by k (Some transfer.now)) (transaction_in self.old k) }
        ensures transfers { self.new.transfers ≡ self.old.transfers }
        ensures count { self.new.count ≡ self.old.count }
        ensures time { self.new.time ≡ self.old.time }
    {
        let request = &transfer.request;
        if let Some(held) = self.transactions.get_mut(&key(request.src, request.txn)) {
            if is_of(held, transfer) {
                held.is_dropped = true;
            }
        }
    }

    /// Notes data of a DBID.
    fn note_sent(&mut self, flit: &DataFlit)
        ensures transactions { self.new.transactions ≡ self.old.transactions }
        ensures transfers { (d : ℕ) → transfer_in self.new d ≡ transfer_after (FlitKind.WriteData flit.now) (transaction_in self.old) d (transfer_in self.old d) }
        ensures count { self.new.count ≡ self.old.count }
        ensures time { self.new.time ≡ self.old.time }
    {
        if !is_write_data(flit.opcode) {
            return;
        }
        if let Some(held) = self.transfers.get_mut(&key(flit.node, flit.txn)) {
            *held = with_write(held, flit);
        }
    }

    /// Notes data to the home, by what was known of their DBID.
    pub(crate) fn note_write(&mut self, flit: &DataFlit, held: &Option<Transfer>)
        requires held { transfer_in self.old (key_of flit.now.node flit.now.txn) ≡ held.now }
        ensures knows { Knows (FlitKind.WriteData flit.now) self.old self.new }
        ensures count { self.new.count ≡ self.old.count }
        ensures time { self.new.time ≡ self.old.time }
    {
        if is_write_data(flit.opcode) && flit.drops() {
            if let Some(transfer) = held {
                self.note_drop(transfer);
            }
        }
        self.note_sent(flit);
    }
}
