// The lines before the entries.
ghost use Rattle.std.specs.Prelude.{◌≤◌, ◌<◌, ◌^◌, ◌++◌, ◌∷◌, [], All, OnOk, map};
ghost use Rattle.opening_lines.specs.Heads.{HasRecord, config_line, group_line, head_lines};
ghost use Rattle.opening_lines.specs.Heads.{limits_line, moment_line};
ghost use Rattle.service_record.specs.Spelling.{IsUnit};
ghost use Rattle.trail_text.specs.Histories.{ended};
ghost use Rattle.trail_export.specs.Exports.{HasExportCause};
ghost use Rattle.trail_export.specs.Gathered.{Gathers, held_size};
ghost use Rattle.trail_export.specs.Readable.{IsFitting};

use super::fault::ExportFault;
use super::writing::write_line;
use opening_lines::{Opening, put_config, put_group, put_limits, put_moment};
use outside::Sink;
use scm_model::{Config, Limits};
use scm_text::WText;
use std::alloc::Global;

fn write_limits<T: Sink>(
    limits: &Limits,
    line: &mut Vec<u8>,
    buffer: &mut Vec<u8>,
    sink: &mut T,
) -> Result<(), ExportFault>
    ensures written { Gathers (T.held sink.old) buffer.old.items
        (T.held sink.new) buffer.new.items result
        (limits_line limits.now ++ 10 ∷ []) }
    ensures longer { held_size (T.held sink.old) ≤ held_size (T.held sink.new) }
    ensures cause { HasExportCause (T.faults sink.old) (T.faults sink.new) result }
{
    put_limits(line, limits)?;
    write_line(line, buffer, sink)
}

fn write_moment<T: Sink>(
    moment: u64,
    line: &mut Vec<u8>,
    buffer: &mut Vec<u8>,
    sink: &mut T,
) -> Result<(), ExportFault>
    ensures written { Gathers (T.held sink.old) buffer.old.items
        (T.held sink.new) buffer.new.items result
        (moment_line moment ++ 10 ∷ []) }
    ensures longer { held_size (T.held sink.old) ≤ held_size (T.held sink.new) }
    ensures cause { HasExportCause (T.faults sink.old) (T.faults sink.new) result }
    ensures fits { moment < 2 ^ 64 }
{
    put_moment(line, moment)?;
    write_line(line, buffer, sink)
}

fn write_group<T: Sink>(
    alloc: Global,
    group: &WText,
    line: &mut Vec<u8>,
    buffer: &mut Vec<u8>,
    sink: &mut T,
) -> Result<(), ExportFault>
    ensures written { Gathers (T.held sink.old) buffer.old.items
        (T.held sink.new) buffer.new.items result
        (group_line group.now ++ 10 ∷ []) }
    ensures longer { held_size (T.held sink.old) ≤ held_size (T.held sink.new) }
    ensures cause { HasExportCause (T.faults sink.old) (T.faults sink.new) result }
    ensures fits { All IsUnit group.now }
{
    put_group(alloc, line, group)?;
    write_line(line, buffer, sink)
}

fn write_groups<T: Sink>(
    alloc: Global,
    groups: &[WText],
    line: &mut Vec<u8>,
    buffer: &mut Vec<u8>,
    sink: &mut T,
) -> Result<(), ExportFault>
    ensures written { Gathers (T.held sink.old) buffer.old.items
        (T.held sink.new) buffer.new.items result
        (ended (map group_line groups.now)) }
    ensures longer { held_size (T.held sink.old) ≤ held_size (T.held sink.new) }
    ensures cause { HasExportCause (T.faults sink.old) (T.faults sink.new) result }
    ensures fit { OnOk result (All (All IsUnit) groups.now) }
{
    for group in groups {
        write_group(alloc, group, line, buffer, sink)?;
    }
    Ok(())
}

fn write_config<T: Sink>(
    alloc: Global,
    config: &Config,
    line: &mut Vec<u8>,
    buffer: &mut Vec<u8>,
    sink: &mut T,
) -> Result<(), ExportFault>
    ensures written { Gathers (T.held sink.old) buffer.old.items
        (T.held sink.new) buffer.new.items result
        (config_line config.now ++ 10 ∷ []) }
    ensures longer { held_size (T.held sink.old) ≤ held_size (T.held sink.new) }
    ensures cause { HasExportCause (T.faults sink.old) (T.faults sink.new) result }
    ensures fits { OnOk result (HasRecord config.now) }
{
    put_config(alloc, line, config)?;
    write_line(line, buffer, sink)
}

fn write_configs<T: Sink>(
    alloc: Global,
    configs: &[Config],
    line: &mut Vec<u8>,
    buffer: &mut Vec<u8>,
    sink: &mut T,
) -> Result<(), ExportFault>
    ensures written { Gathers (T.held sink.old) buffer.old.items
        (T.held sink.new) buffer.new.items result
        (ended (map config_line configs.now)) }
    ensures longer { held_size (T.held sink.old) ≤ held_size (T.held sink.new) }
    ensures cause { HasExportCause (T.faults sink.old) (T.faults sink.new) result }
    ensures fit { OnOk result (All HasRecord configs.now) }
{
    for config in configs {
        write_config(alloc, config, line, buffer, sink)?;
    }
    Ok(())
}

/// Writes what a manager begins with, in the line's room.
pub fn write_head<T: Sink>(
    alloc: Global,
    opening: &Opening,
    line: &mut Vec<u8>,
    buffer: &mut Vec<u8>,
    sink: &mut T,
) -> Result<(), ExportFault>
    ensures written { Gathers (T.held sink.old) buffer.old.items
        (T.held sink.new) buffer.new.items result
        (ended (head_lines opening.now)) }
    ensures longer { held_size (T.held sink.old) ≤ held_size (T.held sink.new) }
    ensures cause { HasExportCause (T.faults sink.old) (T.faults sink.new) result }
    // Lines can say its numbers, groups and configurations.
    ensures fitting { OnOk result (IsFitting opening.now) }
{
    write_limits(&opening.limits, line, buffer, sink)?;
    write_moment(opening.moment, line, buffer, sink)?;
    write_groups(alloc, opening.groups.as_slice(), line, buffer, sink)?;
    write_configs(alloc, opening.configs.as_slice(), line, buffer, sink)
}
