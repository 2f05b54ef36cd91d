//! Because of what a cycle needs its rows.
ghost use Rattle.pc_word.specs.Ranges.{AreLimits};
ghost use Rattle.pc_told.specs.Resources.{IsLeastRoom};
ghost use Rattle.pc_cycles.specs.Cycles.{NeedsRows};

use pc_told::resource_bound;
use pc_waiting::Resource;
use pc_word::Limits;

/// Because of which resource so many rows are needed: the first of which there is too much for fewer.
pub(crate) fn scarcest(limits: Limits, items: u32, tests: u32, memory: u32, least: u32) -> Resource
    requires limits { AreLimits limits }
    requires least { IsLeastRoom limits items tests memory least }
    ensures { NeedsRows limits items tests memory result least }
{
    if resource_bound(limits, items, 0, 0) == least {
        return Resource::Items;
    }
    if resource_bound(limits, 0, tests, 0) == least {
        return Resource::Tests;
    }
    Resource::Memory
}
