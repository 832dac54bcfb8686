//! The hosts that a script has named: what a line adds to them, and which of them it needs.
ghost use Rattle.std.specs.Prelude.{◌≡◌, ◌≢◌, false, true, not, IfErr, OnOk, None, Some};
ghost use Rattle.std.specs.List.{list_all};
ghost use Rattle.up_explain_can.specs.declared.why.Why.{Why};
ghost use Rattle.up_explain_script.specs.ScriptNumbers.{has_host, has_tree, hosts_behind, is_new};
ghost use Rattle.up_command.specs.Users.{has_user};
ghost use Rattle.up_script_lines.specs.declared.script_lines.ScriptLine.{ScriptLine};

use crate::host_flaws::host_flaw;
use std::alloc::Global;
use up_explain_can::{Flaw, Why, bad_word};
use up_lists::Items;
use up_names::User;
use up_script_lines::{NewHost, ScriptLine};
use up_sign::HostName;

/// How many hosts a script may have.
const MOST_HOSTS: u64 = 8;

/// Takes what a line says, where that fits behind these hosts.
pub(crate) fn take(alloc: Global, hosts: &mut Items<NewHost>, says: ScriptLine) -> Result<(), Why>
    ensures good { OnOk result (hosts_behind hosts.old says ≡ Some hosts.new) }
    ensures bad { IfErr result (λ why. why ≢ Why.OutOfMemory → hosts_behind hosts.old says ≡ None) }
    ensures unchanged { IfErr result (λ why. hosts.new ≡ hosts.old) }
{
    match says {
        ScriptLine::Host(host) => add_host(alloc, hosts, host),
        ScriptLine::Enrol(user) => {
            let known = is_host(alloc, hosts.as_slice(), &user.host);
            drop(user);
            known
        }
        ScriptLine::Open(session) => {
            let known = is_host(alloc, hosts.as_slice(), &session.host);
            drop(session);
            known
        }
        ScriptLine::Silent => Ok(()),
        ScriptLine::Request(_, words) => {
            drop(words);
            Ok(())
        }
        ScriptLine::Client(_, call) => {
            drop(call);
            Ok(())
        }
    }
}

/// Takes a host, where it is new.
fn add_host(alloc: Global, hosts: &mut Items<NewHost>, host: NewHost) -> Result<(), Why>
    ensures good { OnOk result (hosts_behind hosts.old (ScriptLine.Host host) ≡ Some hosts.new) }
    ensures bad { IfErr result (λ why. why ≢ Why.OutOfMemory
        → hosts_behind hosts.old (ScriptLine.Host host) ≡ None) }
    ensures unchanged { IfErr result (λ why. hosts.new ≡ hosts.old) }
{
    if !is_new(hosts.as_slice(), &host) {
        let why = host_flaw(alloc, hosts.as_slice(), &host);
        drop(host);
        return Err(why);
    }
    hosts.push(host)?;
    Ok(())
}

/// Whether there is room for a host, whose name and whose trees no other has.
fn is_new(hosts: &[NewHost], host: &NewHost) -> bool
    ensures { result ≡ is_new hosts.now host.now }
{
    (hosts.len() as u64) < MOST_HOSTS
        && !has_host(hosts, host.name.as_str())
        && are_free(hosts, host.owners.as_slice())
}

/// Whether one of the hosts has this name.
pub(crate) fn has_host(hosts: &[NewHost], name: &str) -> bool
    ensures { result ≡ has_host hosts.now name.now }
{
    hosts.iter().any(|host| host.name.as_str() == name)
}

/// Whether none of the hosts has the tree of one of these owners.
fn are_free(hosts: &[NewHost], owners: &[User]) -> bool
    ensures { result ≡ list_all (λ owner. not (has_tree hosts.now owner)) owners.now }
{
    owners.iter().all(|owner| !has_tree(hosts, owner))
}

/// Whether one of the hosts has the tree of this owner.
pub(crate) fn has_tree(hosts: &[NewHost], owner: &User) -> bool
    ensures { result ≡ has_tree hosts.now owner.now }
{
    hosts.iter().any(|host| is_owner(host, owner))
}

fn is_owner(host: &NewHost, owner: &User) -> bool
    ensures { result ≡ has_user host.now.owners owner.now }
{
    host.owners.as_slice().contains(owner)
}

/// Judges whether a host has this name.
fn is_host(alloc: Global, hosts: &[NewHost], name: &HostName) -> Result<(), Why>
    ensures good { OnOk result (has_host hosts.now name.now ≡ true) }
    ensures bad { IfErr result (λ why. why ≢ Why.OutOfMemory → has_host hosts.now name.now ≡ false) }
{
    if has_host(hosts, name.as_str()) {
        Ok(())
    } else {
        Err(bad_word(alloc, name.as_str().as_bytes(), Flaw::HostUnknown))
    }
}
