ghost use Rattle.std.specs.Prelude.{◌≡◌, ◌++◌, [], Some, None, codes, decimal, OnOk};
ghost use Rattle.wire_bytes.specs.FaultText.{fault_text};
ghost use Rattle.exportdata_cmd.specs.Printed.{package_line, name_line};
ghost use Rattle.environments.specs.Environments.{damaged};
ghost use Rattle.checked_files.specs.Checking.{dangling, damaged as is_damaged};
ghost use Rattle.decl_text.specs.Printed.{printed};
ghost use Rattle.exportdata_cmd.specs.Showing.{label, answer_text, decoded_line};
ghost use Rattle.exportdata_cmd.specs.Checking.{flaw_line, ok_line};

use decl_text::put_printed;
use go_values::QName;
use itoa::Buffer;
use std::alloc::AllocError;
use wire_bytes::ByteFault;

/// Adds some words and a number.
pub fn put_number(line: &mut Vec<u8>, words: &[u8], number: u64) -> Result<(), AllocError>
    ensures { OnOk result (line.new.items ≡ line.old.items ++ words.now ++ decimal number) }
{
    line.extend_from_slice(words)?;
    line.extend_from_slice(Buffer::new().format(number).as_bytes())
}

/// Adds a fault as it is printed.
pub fn put_fault(line: &mut Vec<u8>, fault: ByteFault) -> Result<(), AllocError>
    ensures { OnOk result (line.new.items ≡ line.old.items ++ fault_text fault) }
{
    let text = fault.to_string(*line.allocator())?;
    line.extend_from_slice(text.as_bytes())
}

/// Makes the first line of a package.
pub fn write_package_line(line: &mut Vec<u8>, path: &[u8], name: &[u8]) -> Result<(), AllocError>
    ensures { OnOk result (line.new.items ≡ package_line path.now name.now) }
{
    line.clear();
    line.extend_from_slice(b"package ")?;
    put_printed(line, path)?;
    line.extend_from_slice(b" ")?;
    put_printed(line, name)?;
    line.extend_from_slice(b"\n")
}

/// Makes the line of a name.
pub fn write_name_line(line: &mut Vec<u8>, name: &[u8], offset: u64) -> Result<(), AllocError>
    ensures { OnOk result (line.new.items ≡ name_line name.now offset) }
{
    line.clear();
    line.extend_from_slice(b"  ")?;
    put_printed(line, name)?;
    put_number(line, b" ", offset)?;
    line.extend_from_slice(b"\n")
}

/// Makes the line of a name behind which nothing stands.
pub fn write_unknown_line(line: &mut Vec<u8>, q: &QName) -> Result<(), AllocError>
    ensures { OnOk result (line.new.items ≡ answer_text q.now None) }
{
    line.clear();
    put_label(line, q.path.as_slice(), q.name.as_slice())?;
    line.extend_from_slice(b" unknown\n")
}

/// Makes the line of a name whose declaration has a fault.
pub fn write_damaged_line(line: &mut Vec<u8>, q: &QName, fault: ByteFault) -> Result<(), AllocError>
    ensures { OnOk result (line.new.items ≡ answer_text q.now (Some (damaged fault []))) }
{
    line.clear();
    put_label(line, q.path.as_slice(), q.name.as_slice())?;
    line.extend_from_slice(b" damaged ")?;
    put_fault(line, fault)?;
    line.extend_from_slice(b"\n")
}

/// Makes the line that says how many names are declared of all that are listed.
pub fn write_decoded_line(line: &mut Vec<u8>, count: u64, all: u64) -> Result<(), AllocError>
    ensures { OnOk result (line.new.items ≡ decoded_line count all) }
{
    line.clear();
    put_number(line, b"decoded ", count)?;
    put_number(line, b" of ", all)?;
    line.extend_from_slice(b"\n")
}

/// Makes the line of a file with whose names nothing is wrong.
pub fn write_ok_line(line: &mut Vec<u8>, label: &str, count: u32) -> Result<(), AllocError>
    ensures { OnOk result (line.new.items ≡ ok_line label.now count) }
{
    line.clear();
    put_printed(line, label.as_bytes())?;
    put_number(line, b" ok ", u64::from(count))?;
    line.extend_from_slice(b"\n")
}

/// Makes the line of a name that a file lists, and whose declaration has a fault there.
pub fn write_bad_line(
    line: &mut Vec<u8>,
    label: &str,
    path: &[u8],
    name: &[u8],
    fault: ByteFault,
) -> Result<(), AllocError>
    ensures { OnOk result (line.new.items
        ≡ flaw_line label.now (record { path = path.now; name = name.now }) (is_damaged fault)) }
{
    begin_flaw_line(line, label, path, name)?;
    line.extend_from_slice(b" damaged ")?;
    put_fault(line, fault)?;
    line.extend_from_slice(b"\n")
}

/// Makes the line of a name that a file lists, and whose first reference that dangles is to this name.
pub fn write_dangling_line(
    line: &mut Vec<u8>,
    label: &str,
    path: &[u8],
    name: &[u8],
    to: &QName,
) -> Result<(), AllocError>
    ensures { OnOk result (line.new.items
        ≡ flaw_line label.now (record { path = path.now; name = name.now }) (dangling to.now)) }
{
    begin_flaw_line(line, label, path, name)?;
    line.extend_from_slice(b" dangling ")?;
    put_label(line, to.path.as_slice(), to.name.as_slice())?;
    line.extend_from_slice(b"\n")
}

fn begin_flaw_line(
    line: &mut Vec<u8>,
    file: &str,
    path: &[u8],
    name: &[u8],
) -> Result<(), AllocError>
    ensures { OnOk result (line.new.items
        ≡ printed file.now ++ codes " " ++ label (record { path = path.now; name = name.now })) }
{
    line.clear();
    put_printed(line, file.as_bytes())?;
    line.extend_from_slice(b" ")?;
    put_label(line, path, name)
}

/// Adds a name with the path of its package.
fn put_label(line: &mut Vec<u8>, path: &[u8], name: &[u8]) -> Result<(), AllocError>
    ensures { OnOk result (line.new.items ≡ line.old.items ++ label (record { path = path.now; name = name.now })) }
{
    put_printed(line, path)?;
    line.extend_from_slice(b":")?;
    put_printed(line, name)
}
