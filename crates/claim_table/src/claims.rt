//! The table of lines, ports, devices and parameters.
ghost use Rattle.std.specs.Prelude.{◌≡◌, ◌+◌, ◌≤◌, true, false, IfOk, OnOk, OnErr, slice_get};
ghost use Rattle.std.specs.List.{list_any};
ghost use Rattle.sd_base.specs.declared.history.Update.TheVariants.{Line, FreeLine, Ports, DropPorts, Device, DelDevice, Param, ClearParam};
ghost use Rattle.sd_base.specs.History.{line_key, ports_key, device_key, param_key};
ghost use Rattle.sd_base.specs.Part.{ServesAt, Loses};
ghost use Rattle.claim_table.specs.Ordered.{last_of_each};
ghost use Rattle.claim_table.specs.ClaimRows.{is_share, no_claims, is_wide, covers};
ghost use Rattle.claim_table.specs.ClaimCalls.{if_held, line_answer, with_line, holds_line, without_line, ports_answer, with_ports, holds_ports, without_ports, device_answer, with_device, holds_device, without_device, param_answer, with_param, holds_param, without_param, param_value, line_holder};
ghost use Rattle.claim_table.specs.ClaimPart.{HoldsClaims, refused_as, OfEachHistory, holders_of, holds_port, values_of};

use crate::Claim;
use crate::claim::port_range;
use crate::params::Params;
use crate::ranges::Ranges;
use crate::rows::{
    Rows, count_of, has_claim, has_number, has_port, has_range, is_taken, latest, meets_range,
    nth_of,
};
use sd_base::limits::{DEVICE_NUMBERS, DEVICES, LINES, PARAMETER_NUMBERS, PARAMETERS, PORT_RANGES};
use sd_base::{Memory, Steps, number_below};
use std::alloc::Global;
use std::marker::Model;
use std::sync::ledger::Ledger;

/// Why a claim is refused.
#[derive(Clone, Copy, PartialEq, Eq, Debug)]
pub enum ClaimRefusal {
    /// It is held already.
    Busy,
    /// The number is out of range, or the owner does not have what it gives back.
    Bad,
    /// The owner has 32 of the kind.
    Full,
}

/// Who holds a line, and which handler serves it.
#[derive(Clone, Copy, PartialEq, Eq, Debug)]
pub struct Holder {
    /// The kernel is 0, the drivers are 1 to 4.
    pub owner: u8,
    /// The owner's function.
    pub handler: u32,
}

/// The interrupt lines, numbered from 0.
const LINE_NUMBERS: u16 = LINES as u16;

/// Who holds which lines, ports, devices and parameters.
#[derive(Drop)]
pub struct Claims {
    share: u8,
    lines: Rows<u32>,
    ports: Ranges,
    devices: Rows<()>,
    params: Params,
}

impl Model for Claims {
    ghost use Rattle.claim_table.specs.ClaimRows.{ClaimRows, HasCaps};

    ghost Value = { ClaimRows };

    ghost view = { λ a. record { share = a.share; lines = a.lines; ports = a.ports; devices = a.devices; params = a.params } };

    ghost invariant = { λ a. HasCaps (record { share = a.share; lines = a.lines; ports = a.ports; devices = a.devices; params = a.params }) };
}

impl Claims {
    /// A table of no claims, of whose lines each may have one holder. All memory that it ever takes is taken here.
    pub fn new(alloc: Global) -> Result<Claims, Memory>
        ensures { IfOk result (λ claims. claims ≡ no_claims 1) }
    {
        Claims::with_share(alloc, 1)
    }

    /// The same, of whose lines each may have as many holders as the share, which is 1 or 4.
    pub fn with_share(alloc: Global, share: u8) -> Result<Claims, Memory>
        requires { is_share share ≡ true }
        ensures { IfOk result (λ claims. claims ≡ no_claims share) }
    {
        Ok(Claims {
            share,
            lines: Rows::new(alloc)?,
            ports: Ranges::new(alloc)?,
            devices: Rows::new(alloc)?,
            params: Params::new(alloc)?,
        })
    }

    /// Gives an owner a line, from 0 to 63, which its `handler` serves.
    ///
    /// Bad where there is no such line, Busy where the owner holds it or as many owners as the share do.
    pub fn claim_line(&mut self, owner: u8, line: i32, handler: u32) -> Result<(), ClaimRefusal>
        requires { owner ≤ 4 }
        ensures answer { result ≡ line_answer self.old owner line }
        ensures ok { OnOk result (self.new ≡ with_line self.old owner line handler) }
        ensures err { OnErr result (self.new ≡ self.old) }
        ensures serves { ServesAt self.old.share HoldsClaims self.old owner (Line line handler) (refused_as result) self.new }
    {
        let Some(number) = number_below(line, LINE_NUMBERS) else {
            return Err(ClaimRefusal::Bad);
        };
        if is_taken(self.share, owner, number, self.lines.as_slice()) {
            return Err(ClaimRefusal::Busy);
        }
        self.lines.insert(Claim {
            owner,
            number,
            detail: handler,
        });
        Ok(())
    }

    /// Takes an owner's line back. Bad where the owner does not hold it.
    pub fn free_line(&mut self, owner: u8, line: i32) -> Result<(), ClaimRefusal>
        ensures answer { result ≡ if_held (holds_line self.old owner line) }
        ensures ok { OnOk result (self.new ≡ without_line self.old owner line) }
        ensures err { OnErr result (self.new ≡ self.old) }
        ensures serves { ServesAt self.old.share HoldsClaims self.old owner (FreeLine line) (refused_as result) self.new }
    {
        let Some(number) = number_below(line, LINE_NUMBERS) else {
            return Err(ClaimRefusal::Bad);
        };
        if !has_claim(self.lines.as_slice(), owner, number) {
            return Err(ClaimRefusal::Bad);
        }
        self.lines.drop_claim(owner, number);
        Ok(())
    }

    /// Gives an owner the `n` ports from `base`, all from 0 to 65,535.
    ///
    /// Bad where they are not all ports or there is none, Busy where any held range has one of them, Full where the owner
    /// has 32 ranges.
    pub fn claim_ports(&mut self, owner: u8, base: i32, n: i32) -> Result<(), ClaimRefusal>
        requires { owner ≤ 4 }
        ensures answer { result ≡ ports_answer self.old owner base n }
        ensures ok { OnOk result (self.new ≡ with_ports self.old owner base n) }
        ensures err { OnErr result (self.new ≡ self.old) }
        ensures serves { ServesAt self.old.share HoldsClaims self.old owner (Ports base n) (refused_as result) self.new }
    {
        let Some(range) = port_range(base, n) else {
            return Err(ClaimRefusal::Bad);
        };
        if meets_range(self.ports.as_slice(), range.base, range.n) {
            return Err(ClaimRefusal::Busy);
        }
        if count_of(self.ports.as_slice(), owner) >= PORT_RANGES {
            return Err(ClaimRefusal::Full);
        }
        self.ports.insert(Claim {
            owner,
            number: range.base,
            detail: range.n,
        });
        Ok(())
    }

    /// Takes an owner's range of ports back. Bad where the owner does not hold exactly this range.
    pub fn drop_ports(&mut self, owner: u8, base: i32, n: i32) -> Result<(), ClaimRefusal>
        ensures answer { result ≡ if_held (holds_ports self.old owner base n) }
        ensures ok { OnOk result (self.new ≡ without_ports self.old owner base n) }
        ensures err { OnErr result (self.new ≡ self.old) }
        ensures serves { ServesAt self.old.share HoldsClaims self.old owner (DropPorts base n) (refused_as result) self.new }
    {
        let Some(range) = port_range(base, n) else {
            return Err(ClaimRefusal::Bad);
        };
        if !has_range(self.ports.as_slice(), owner, range.base, range.n) {
            return Err(ClaimRefusal::Bad);
        }
        self.ports.drop_range(owner, range.base, range.n);
        Ok(())
    }

    /// Gives an owner a device, from 0 to 1,023.
    ///
    /// Bad where there is no such device, Busy where any owner has it, Full where the owner has 32.
    pub fn add_device(&mut self, owner: u8, id: i32) -> Result<(), ClaimRefusal>
        requires { owner ≤ 4 }
        ensures answer { result ≡ device_answer self.old owner id }
        ensures ok { OnOk result (self.new ≡ with_device self.old owner id) }
        ensures err { OnErr result (self.new ≡ self.old) }
        ensures serves { ServesAt self.old.share HoldsClaims self.old owner (Device id) (refused_as result) self.new }
    {
        let Some(number) = number_below(id, DEVICE_NUMBERS) else {
            return Err(ClaimRefusal::Bad);
        };
        if has_number(self.devices.as_slice(), number) {
            return Err(ClaimRefusal::Busy);
        }
        if count_of(self.devices.as_slice(), owner) >= DEVICES {
            return Err(ClaimRefusal::Full);
        }
        self.devices.insert(Claim {
            owner,
            number,
            detail: (),
        });
        Ok(())
    }

    /// Takes an owner's device back. Bad where it is not the owner's.
    pub fn del_device(&mut self, owner: u8, id: i32) -> Result<(), ClaimRefusal>
        ensures answer { result ≡ if_held (holds_device self.old owner id) }
        ensures ok { OnOk result (self.new ≡ without_device self.old owner id) }
        ensures err { OnErr result (self.new ≡ self.old) }
        ensures serves { ServesAt self.old.share HoldsClaims self.old owner (DelDevice id) (refused_as result) self.new }
    {
        let Some(number) = number_below(id, DEVICE_NUMBERS) else {
            return Err(ClaimRefusal::Bad);
        };
        if !has_claim(self.devices.as_slice(), owner, number) {
            return Err(ClaimRefusal::Bad);
        }
        self.devices.drop_claim(owner, number);
        Ok(())
    }

    /// Sets an owner's value of a parameter, from 0 to 255, in place of the one that it had. Other owners' values stay, and
    /// the one that was set last counts.
    ///
    /// Bad where there is no such parameter, Full where the owner has 32 others and none of this one.
    pub fn set_param(&mut self, owner: u8, key: i32, value: i32) -> Result<(), ClaimRefusal>
        requires { owner ≤ 4 }
        ensures answer { result ≡ param_answer self.old owner key }
        ensures ok { OnOk result (self.new ≡ with_param self.old owner key value) }
        ensures err { OnErr result (self.new ≡ self.old) }
        ensures serves { ServesAt self.old.share HoldsClaims self.old owner (Param key value) (refused_as result) self.new }
    {
        let Some(number) = number_below(key, PARAMETER_NUMBERS) else {
            return Err(ClaimRefusal::Bad);
        };
        let replaces = has_claim(self.params.as_slice(), owner, number);
        if !replaces && count_of(self.params.as_slice(), owner) >= PARAMETERS {
            return Err(ClaimRefusal::Full);
        }
        self.params.drop_claim(owner, number);
        self.params.insert(Claim {
            owner,
            number,
            detail: value,
        });
        Ok(())
    }

    /// Takes an owner's value of a parameter away. Bad where the owner has none.
    pub fn clear_param(&mut self, owner: u8, key: i32) -> Result<(), ClaimRefusal>
        ensures answer { result ≡ if_held (holds_param self.old owner key) }
        ensures ok { OnOk result (self.new ≡ without_param self.old owner key) }
        ensures err { OnErr result (self.new ≡ self.old) }
        ensures serves { ServesAt self.old.share HoldsClaims self.old owner (ClearParam key) (refused_as result) self.new }
    {
        let Some(number) = number_below(key, PARAMETER_NUMBERS) else {
            return Err(ClaimRefusal::Bad);
        };
        if !has_claim(self.params.as_slice(), owner, number) {
            return Err(ClaimRefusal::Bad);
        }
        self.params.drop_claim(owner, number);
        Ok(())
    }

    /// The value of a parameter that was set last among those of all owners, or None where no owner has one.
    pub fn get_param(&self, key: i32) -> Option<i32>
        ensures value { result ≡ param_value self.now key }
        ensures reads { OfEachHistory self.now (λ h. result ≡ slice_get (values_of h key) 0) }
    {
        let number = number_below(key, PARAMETER_NUMBERS)?;
        let claim = latest(self.params.as_slice(), number)?;
        Some(claim.detail)
    }

    /// The k-th holder of a line in the order of their requests, counted from 0, or None where the line has no such holder.
    pub fn holder(&self, line: i32, k: u32) -> Option<Holder>
        ensures value { result ≡ line_holder self.now line k }
        ensures reads { OfEachHistory self.now (λ h. result ≡ slice_get (holders_of h line) k) }
    {
        let number = number_below(line, LINE_NUMBERS)?;
        let claim = nth_of(self.lines.as_slice(), number, k)?;
        Some(Holder {
            owner: claim.owner,
            handler: claim.detail,
        })
    }

    /// Whether a range of the owner has this port.
    pub fn has_port(&self, owner: u8, port: i32) -> bool
        ensures value { result ≡ list_any (covers owner port) self.now.ports }
        ensures reads { OfEachHistory self.now (λ h. result ≡ holds_port h owner port) }
    {
        has_port(self.ports.as_slice(), owner, port)
    }

    /// The lines that are held, with their holders and handlers, in order.
    pub fn lines(&self) -> &[Claim<u32>]
        ensures { result.now ≡ self.now.lines }
    {
        self.lines.as_slice()
    }

    /// The ranges of ports that are held, by their first ports, each with how many it has, at most 65,536.
    pub fn ports(&self) -> &[Claim<u32>]
        ensures value { result.now ≡ self.now.ports }
        ensures narrow { list_any is_wide self.now.ports ≡ false }
    {
        self.ports.as_slice()
    }

    /// The devices, in order.
    pub fn devices(&self) -> &[Claim<()>]
        ensures { result.now ≡ self.now.devices }
    {
        self.devices.as_slice()
    }

    /// Of each parameter that has one the value that was set last, in order.
    pub fn latest_params(&self) -> &[Claim<i32>]
        ensures { result.now ≡ last_of_each self.now.params }
    {
        self.params.latest()
    }

    /// Takes away the line that an owner holds.
    pub fn remove_line<L: Ledger>(&mut self, owner: u8, line: i32, steps: &mut Steps<L>)
        requires { holds_line self.old owner line ≡ true }
        ensures removed { self.new ≡ without_line self.old owner line }
        ensures loses { Loses HoldsClaims self.old owner (line_key line) self.new }
        ensures steps { steps.new ≡ steps.old + 1 }
    {
        if let Some(number) = number_below(line, LINE_NUMBERS) {
            self.lines.drop_claim(owner, number);
            steps.tick();
        }
    }

    /// Takes away the range of ports that an owner holds.
    pub fn remove_ports<L: Ledger>(&mut self, owner: u8, base: i32, n: i32, steps: &mut Steps<L>)
        requires { holds_ports self.old owner base n ≡ true }
        ensures removed { self.new ≡ without_ports self.old owner base n }
        ensures loses { Loses HoldsClaims self.old owner (ports_key base n) self.new }
        ensures steps { steps.new ≡ steps.old + 1 }
    {
        if let Some(range) = port_range(base, n) {
            self.ports.drop_range(owner, range.base, range.n);
            steps.tick();
        }
    }

    /// Takes away the device that an owner has.
    pub fn remove_device<L: Ledger>(&mut self, owner: u8, id: i32, steps: &mut Steps<L>)
        requires { holds_device self.old owner id ≡ true }
        ensures removed { self.new ≡ without_device self.old owner id }
        ensures loses { Loses HoldsClaims self.old owner (device_key id) self.new }
        ensures steps { steps.new ≡ steps.old + 1 }
    {
        if let Some(number) = number_below(id, DEVICE_NUMBERS) {
            self.devices.drop_claim(owner, number);
            steps.tick();
        }
    }

    /// Takes away the value that an owner has of a parameter.
    pub fn remove_param<L: Ledger>(&mut self, owner: u8, key: i32, steps: &mut Steps<L>)
        requires { holds_param self.old owner key ≡ true }
        ensures removed { self.new ≡ without_param self.old owner key }
        ensures loses { Loses HoldsClaims self.old owner (param_key key) self.new }
        ensures steps { steps.new ≡ steps.old + 1 }
    {
        if let Some(number) = number_below(key, PARAMETER_NUMBERS) {
            self.params.drop_claim(owner, number);
            steps.tick();
        }
    }
}
