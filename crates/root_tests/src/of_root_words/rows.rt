//! Words, and what they ask for.

/// A line for each row: words after the program's own with ` | ` between them, ` => `, and what they
/// ask for. `<>` is an empty word, and there are no words if nothing is before ` => `. `\n`, `\r`,
/// `\t`, `\\` and `\xHH` are one byte each. Empty lines and lines that begin with `#` are no rows.
pub(super) const ROWS: &str = r#"
# Each command.
enable | a.service => enable <a.service>
enable | a | b | /opt/c.service => enable <a> <b> </opt/c.service>
disable | a | b => disable <a> <b>
reenable | a => reenable <a>
preset | a => preset <a>
mask | a => mask <a>
unmask | a => unmask <a>
preset-all => preset-all
link | /opt/a.service | b => link </opt/a.service> <b>
add-wants | t | a | b => <t> wants <a> <b>
add-requires | t | a => <t> requires <a>
set-default | t => set-default <t>
get-default => get-default
is-enabled | a | b => is-enabled <a> <b>
list-unit-files => list types states
list-unit-files | a* | b => list <a*> <b> types states
list-dependencies => dependencies <default.target>
list-dependencies | a => dependencies <a>
status | a | b => status <a> <b>
place | /p | link | /t => place </p> <link> </t>
place | /p | link => place </p> <link>
place | /p | file => place </p> <file>
place | /p | file | a b => place </p> <file> <a b>
place | /p | file | - => place </p> <file> <->
remove | /p => remove </p>
run => run
run | script => file=<script> run
run | - => run
run | ./- => file=<./-> run
keep => keep
log => log
show | 1 => show 1
show | 4294967295 => show 4294967295
undo | 1 => undo 1
undo | 3 | 2 | 3 => undo 3 2 3
redo | 1 => redo 1
redo | 4294967295 | 10 => redo 4294967295 10
recover => recover
forget => forget
capture => capture
diff | other => diff <other>
diff | - => diff <->
apply => apply
apply | inventory => file=<inventory> apply
apply | - => apply

# Each option, before and after the command and between its words.
--root=/r | enable | a => root=</r> enable <a>
--root | /r | enable | a => root=</r> enable <a>
enable | --root | /r | a => root=</r> enable <a>
enable | a | --root=/r | b => root=</r> enable <a> <b>
enable | a | --root | /r => root=</r> enable <a>
--root=/ | get-default => root=</> get-default
--root=/r | enable | a | --root=/s => root=</s> enable <a>
--root=/r | --root=/s | enable | a => root=</s> enable <a>
--root= | enable | a => 2 --root= is without a directory; that of this machine is --root=/
--root | <> | enable | a => 2 --root= is without a directory; that of this machine is --root=/
--as | anna | enable | a => as=<anna> enable <a>
enable | a | --as=anna => as=<anna> enable <a>
--as | anna mask | enable | a => as=<anna mask> enable <a>
--as= | enable | a => as=<> enable <a>
--dry-run | enable | a => dry enable <a>
enable | a | --dry-run => dry enable <a>
enable | --dry-run | a | --dry-run => dry enable <a>
--dry-run | run => dry run
--dry-run | apply | i => dry file=<i> apply
--dry-run | is-enabled | a => dry is-enabled <a>
--vendor | mask | a => vendor mask <a>
place | --vendor | /p | file => vendor place </p> <file>
run | --vendor => vendor run
apply | --vendor => vendor apply
--vendor | is-enabled | a => 2 --vendor is no option of is-enabled
capture | --vendor => 2 --vendor is no option of capture
--keep-going | run => keep run
run | f | --keep-going => keep file=<f> run
enable | a | --keep-going => 2 --keep-going is no option of enable
--keep-going | apply => 2 --keep-going is no option of apply
undo | 1 | 2 | --keep-going => 2 --keep-going is no option of undo
run | --rows=history => rows-of-history run
--rows | run | run | f => file=<f> rows-of-run run
--rows=run | run | --rows | history | - => rows-of-history run
run | --rows=both => 2 clap error: invalid value 'both' for '--rows <history|run>'
run | --rows= => 2 clap error: a value is required for '--rows <history|run>' but none was supplied
--rows=run | enable | a => 2 --rows is no option of enable
undo | 1 | --rows=history => 2 --rows is no option of undo
apply | --rows | run => 2 --rows is no option of apply
--rows=history | capture => 2 --rows is no option of capture
keep | --anew => anew keep
--anew | keep | --anew => anew keep
--anew | run => 2 --anew is no option of run
forget | --anew => 2 --anew is no option of forget
recover | --anew => 2 --anew is no option of recover
--anew | status | a => 2 --anew is no option of status
--history=/h | enable | a => history=</h> enable <a>
mask | --history | /h | a | b => history=</h> mask <a> <b>
preset-all | --history=/h => history=</h> preset-all
--history=/h | add-wants | t | a | --history=/i => history=</i> <t> wants <a>
--his=/h | set-default | t => history=</h> set-default <t>
place | /p | file | --history=/h => history=</h> place </p> <file>
remove | /p | --history=/h => history=</h> remove </p>
--history=/h | run | f => history=</h> file=<f> run
apply | --history=/h | i => history=</h> file=<i> apply
keep | --history=h => history=<h> keep
--history=/h | undo | 2 => history=</h> undo 2
redo | 2 | --history | /h | 3 => history=</h> redo 2 3
recover | --history=/h => history=</h> recover
forget | --history=/h => history=</h> forget
log | --unit=ssh => unit=<ssh> log
--unit | ssh.service | log | --unit=a@b => unit=<a@b> log
log | --operator=anna | --since | 2026-12-01 => operator=<anna> since=<2026-12-01> log
--since=2026-12-01 08:30 | --operator | outside | log => operator=<outside> since=<2026-12-01 08:30> log
log | --since=yesterday => since=<yesterday> log
log | --unit=a b\n => unit=<a b\n> log
log | -n | 10 => lines=10 log
log | -n1 | --lines=4294967295 => lines=4294967295 log
--lines | 007 | log | --full => lines=7 full log
log | -l => full log
--li=3 | log | --unit=a | --op=b | --si=c | --fu => unit=<a> operator=<b> since=<c> lines=3 full log
--root=/r | log | --wait | --history=/h | --adopt | --json => root=</r> wait history=</h> adopt json log
log | --no-legend => bare log
log | -q | --legend=yes => quiet log
--history=/h | show | 2 | --adopt | --json | --wait=3 | --root=/r => root=</r> wait=3 history=</h> adopt json show 2
show | 007 | --full => show 7
undo | --with-later | 3 => with-later undo 3
--with-later | undo | 3 | --dry-run => dry with-later undo 3
undo | 3 | --with-l => with-later undo 3
log | -n | 0 => 2 --lines=0: N is a whole number from 1 to 4,294,967,295
log | -n4294967296 => 2 --lines=4294967296: N is a whole number from 1 to 4,294,967,295
--lines=ten | log => 2 --lines=ten: N is a whole number from 1 to 4,294,967,295
log | --lines= => 2 --lines=: N is a whole number from 1 to 4,294,967,295
log | --lines=+1 => 2 --lines=+1: N is a whole number from 1 to 4,294,967,295
log | --lines=-1 => 2 --lines=-1: N is a whole number from 1 to 4,294,967,295
log | -n1 | -n | 1.5 => 2 --lines=1.5: N is a whole number from 1 to 4,294,967,295
log | --unit= => 2 --unit= is without a value
--operator | <> | log => 2 --operator= is without a value
log | --since= => 2 --since= is without a value
undo | --with-later | 3 | 2 => 2 undo --with-later takes one ROW, and finds the other rows itself
undo | 3 | 3 | --with-later => 2 undo --with-later takes one ROW, and finds the other rows itself
undo | 3 | x | --with-later => 2 undo x: ROW is a whole number from 1 to 4,294,967,295
redo | 3 | --with-later => 2 --with-later is no option of redo
--with-later | log => 2 --with-later is no option of log
run | --with-later => 2 --with-later is no option of run
show | 1 | --with-later => 2 --with-later is no option of show
show | 1 | --unit=a => 2 --unit is no option of show
show | 1 | -n1 => 2 --lines is no option of show
--operator=a | undo | 1 => 2 --operator is no option of undo
status | a | --since=2026-12-01 => 2 --since is no option of status
list-unit-files | --unit=a => 2 --unit is no option of list-unit-files
-n10 | status | a => 2 --lines is no option of status
redo | 1 | --lines=0 => 2 --lines is no option of redo
log | --as=anna => 2 --as is no option of log
show | 1 | --as=anna => 2 --as is no option of show
--with=/a | log => 2 --with is no option of log
show | --with=/a | 1 => 2 --with is no option of show
log | --vendor => 2 --vendor is no option of log
--anew | log => 2 --anew is no option of log
show | 1 | --rows=run => 2 --rows is no option of show
--max=1 | enable | a => max=1 enable <a>
enable | a | --max=65536 => max=65536 enable <a>
--max | 256 | status | a => status <a>
--max=1 | capture | --max=0512 => max=512 capture
run | --max=1000 | f => max=1000 file=<f> run
--max=2 | forget => max=2 forget
log | --max=2 => max=2 log
--max=0 | enable | a => 2 --max=0: MIB is a whole number from 1 to 65,536
status | a | --max=65537 => 2 --max=65537: MIB is a whole number from 1 to 65,536
diff | o | --max=x => 2 --max=x: MIB is a whole number from 1 to 65,536
--max= | get-default => 2 --max=: MIB is a whole number from 1 to 65,536
capture | --max=+1 => 2 --max=+1: MIB is a whole number from 1 to 65,536
capture | --max=-1 => 2 --max=-1: MIB is a whole number from 1 to 65,536
capture | --max=1.5 => 2 --max=1.5: MIB is a whole number from 1 to 65,536
capture | --max=1M => 2 --max=1M: MIB is a whole number from 1 to 65,536
capture | --max=4294967297 => 2 --max=4294967297: MIB is a whole number from 1 to 65,536
--history= | undo | 1 => 2 --history= is without a directory; a history in the root needs no option
keep | --history | <> => 2 --history= is without a directory; a history in the root needs no option
--history=/h | is-enabled | a => 2 --history is no option of is-enabled
get-default | --history=/h => 2 --history is no option of get-default
list-unit-files | --history=/h => 2 --history is no option of list-unit-files
--history=/h | list-dependencies => 2 --history is no option of list-dependencies
--history | /h | status | a => history=</h> status <a>
capture | --history= => 2 --history is no option of capture
diff | --history=/h | o => 2 --history is no option of diff
--adopt | link | /a => adopt link </a>
reenable | a | --adopt => adopt reenable <a>
run | --adopt => adopt run
--adopt | apply => adopt apply
--history=/h | keep | --anew | --adopt => history=</h> adopt anew keep
undo | --adopt | 2 => adopt undo 2
recover | --adopt => adopt recover
forget | --adopt => adopt forget
--adopt | is-enabled | a => 2 --adopt is no option of is-enabled
get-default | --adopt => 2 --adopt is no option of get-default
list-unit-files | --adopt => 2 --adopt is no option of list-unit-files
--adopt | list-dependencies => 2 --adopt is no option of list-dependencies
status | a | --adopt => adopt status <a>
--adopt | capture => 2 --adopt is no option of capture
diff | o | --adopt => 2 --adopt is no option of diff
--as=anna | undo | 1 | -q => as=<anna> quiet bare undo 1
--dry-run | redo | 1 | --vendor | --json => dry vendor json redo 1
undo | --wait | 3 | --with=/a | --root=/r => root=</r> with </a> wait undo 3
keep | --with=/a | --wait=5 => with </a> wait=5 keep
keep | --as=anna => 2 --as is no option of keep
recover | --as=anna => 2 --as is no option of recover
--as=anna | forget => 2 --as is no option of forget
keep | --dry-run => 2 --dry-run is no option of keep
--dry-run | recover => 2 --dry-run is no option of recover
forget | --dry-run => 2 --dry-run is no option of forget
keep | --vendor => 2 --vendor is no option of keep
recover | --with=/a => 2 --with is no option of recover
--with | /a | forget => 2 --with is no option of forget
run | --as | anna => 2 --as is no option of run
--as | anna | capture => 2 --as is no option of capture
--wait | mask | a => wait mask <a>
mask | --wait | a => wait mask <a>
mask | a | --wait=0 => wait=0 mask <a>
--wait=5 | mask | a | --wait=7 => wait=7 mask <a>
mask | a | --wait=7 | --wait => wait mask <a>
capture | --wait=4294967295 => wait=4294967295 capture
capture | --wait=4294967296 => 2 --wait=4294967296: SECONDS is a whole number up to 4,294,967,295
capture | --wait= => 2 --wait=: SECONDS is a whole number up to 4,294,967,295
capture | --wait=-1 => 2 --wait=-1: SECONDS is a whole number up to 4,294,967,295
capture | --wait=1s => 2 --wait=1s: SECONDS is a whole number up to 4,294,967,295
capture | --with | /a => with </a> capture
--with=/a | capture | --with | /b | --with=/c => with </a> </b> </c> capture
--with=/a | --with=/b | enable | u => with </a> </b> enable <u>
--json | status | a => json status <a>
status | a | --json => json status <a>
-q | enable | a => quiet bare enable <a>
enable | a | --quiet => quiet bare enable <a>
-q | list-unit-files | --legend=yes => quiet list types states
--no-legend | list-unit-files => bare list types states
list-unit-files | --no-legend | -q => quiet bare list types states
list-unit-files | --legend=0 => bare list types states
--no-legend | list-unit-files | --legend=on => list types states
--legend=on | list-unit-files | --no-legend => bare list types states
list-unit-files | --legend=maybe => 2 clap error: invalid value 'maybe' for '--legend <legend>': value was not a boolean
--runtime | enable | a => runtime enable <a>
mask | a | --runtime => runtime mask <a>
add-wants | t | --runtime | a => runtime <t> wants <a>
link | --runtime | /a => runtime link </a>
preset-all | --runtime => runtime preset-all
set-default | t | --runtime => set-default <t>
preset | a | --preset-mode=full => preset <a>
preset | --preset-mode | enable-only | a => enable-only preset <a>
--preset-mode=disable-only | preset-all => disable-only preset-all
--preset-mode=disable-only | enable | a => enable <a>
--preset-mode=full | preset | a | --preset-mode=enable-only => enable-only preset <a>
preset | a | --preset-mode=some => 2 clap error: invalid value 'some' for '--preset-mode <MODE>'
--reverse | list-dependencies => reverse dependencies <default.target>
list-dependencies | a | --reverse => reverse dependencies <a>
--reverse | is-enabled | a => is-enabled <a>
--type=service | list-unit-files => list types <service> states
list-unit-files | -t | service,mount | a* => list <a*> types <service> <mount> states
-tservice | list-unit-files | -ttimer | --type | path => list types <service> <timer> <path> states
list-unit-files | --type=service,,mount, => list types <service> <mount> states
list-unit-files | --type=masked,slice => list types <slice> states <masked>
list-unit-files | --type= => 2 --type= is without a value
list-unit-files | --type=foo => 2 foo is no type of units; the types are service, mount, swap, socket, target, device, automount, timer, path, slice and scope
list-unit-files | --state=enabled => list types states <enabled>
--state=enabled,masked | list-unit-files | --state | x => list types states <enabled> <masked> <x>
list-unit-files | --state= => 2 --state= is without a value
capture | --all => all capture
-a | capture => all capture
list-unit-files | --all => list types states
--no-pager | --plain | -l | is-enabled | a | --full => is-enabled <a>
--system | --no-reload | enable | --no-warn | a | --no-ask-password => enable <a>
-lq | enable | a => quiet bare enable <a>
enable | -qlt | service | a => quiet bare enable <a>
--no-leg | list-unit-files | --rev => bare list types states

# What is refused by a sentence: its status is 2.
start | a => 2 start works on a running machine; unitroot changes files alone
--root=/r | stop | --no-block | a => 2 stop works on a running machine; unitroot changes files alone
-q | --root | /r | restart => 2 restart works on a running machine; unitroot changes files alone
daemon-reload => 2 daemon-reload works on a running machine; unitroot changes files alone
list-units | --help => 2 list-units works on a running machine; unitroot changes files alone
suspend-then-hibernate => 2 suspend-then-hibernate works on a running machine; unitroot changes files alone
cat | a => 2 cat is not offered: status shows where a unit is found, and the file can be read there
edit | a => 2 edit is not offered: edit the unit file itself, or add one by place PATH file
revert | a => 2 revert is not offered: remove PATH removes a file or link, and unmask a mask
help => 2 help is an option here: unitroot --help, or unitroot COMMAND --help
enable | --now | a => 2 --now starts and stops units on a running machine; unitroot changes files alone
--now | disable | a => 2 --now starts and stops units on a running machine; unitroot changes files alone
enable | -f | a => 2 --force is not offered: remove PATH removes the link that is in the way
--force | link | /a => 2 --force is not offered: remove PATH removes the link that is in the way
enable | -qf | a => 2 --force is not offered: remove PATH removes the link that is in the way
--user | enable | a => 2 --user is not offered: unitroot knows the units of the system alone
enable | a | --global => 2 --global is not offered: unitroot knows the units of the system alone
--image=/i | enable | a => 2 --image is not offered: mount the image, and give its directory to --root
-H | h | enable | a => 2 --host works on another machine; unitroot changes files beneath --root alone
enable | --host=h | a => 2 --host works on another machine; unitroot changes files beneath --root alone
-M | m | enable | a => 2 --machine works on a running container; unitroot changes files beneath --root alone
--machine=m | enable | a => 2 --machine works on a running container; unitroot changes files beneath --root alone
 => 2 the command is missing; unitroot --help has all of them
--root=/r => 2 the command is missing; unitroot --help has all of them
-- => 2 the command is missing; unitroot --help has all of them
show | 0 => 2 show 0: ROW is a whole number from 1 to 4,294,967,295
show | ssh.service => 2 show ssh.service: ROW is a whole number from 1 to 4,294,967,295
show | 4294967296 => 2 show 4294967296: ROW is a whole number from 1 to 4,294,967,295
show | <> => 2 show : ROW is a whole number from 1 to 4,294,967,295
undo | 0 => 2 undo 0: ROW is a whole number from 1 to 4,294,967,295
redo | 000 => 2 redo 000: ROW is a whole number from 1 to 4,294,967,295
undo | 007 => undo 7
undo | 4294967296 => 2 undo 4294967296: ROW is a whole number from 1 to 4,294,967,295
redo | 1 | 18446744073709551617 => 2 redo 18446744073709551617: ROW is a whole number from 1 to 4,294,967,295
undo | 1 | two | 0 => 2 undo two: ROW is a whole number from 1 to 4,294,967,295
undo | +3 => 2 undo +3: ROW is a whole number from 1 to 4,294,967,295
redo | -- | -1 => 2 redo -1: ROW is a whole number from 1 to 4,294,967,295
undo | 1.0 => 2 undo 1.0: ROW is a whole number from 1 to 4,294,967,295
undo | 1,2 => 2 undo 1,2: ROW is a whole number from 1 to 4,294,967,295
undo | 1-3 => 2 undo 1-3: ROW is a whole number from 1 to 4,294,967,295
undo | 0x1 => 2 undo 0x1: ROW is a whole number from 1 to 4,294,967,295
undo | <> => 2 undo : ROW is a whole number from 1 to 4,294,967,295
undo | 1 2 => 2 undo 1 2: ROW is a whole number from 1 to 4,294,967,295
undo | \x201 => 2 undo  1: ROW is a whole number from 1 to 4,294,967,295
redo | 1\n => 2 redo 1\n: ROW is a whole number from 1 to 4,294,967,295
undo | \xd9\xa3 => 2 undo \xd9\xa3: ROW is a whole number from 1 to 4,294,967,295

# What clap answers: help, the version, and bad words.
--help => 0 clap Enables, disables, masks and presets systemd units in the root directory of an
-h | enable => 0 clap Enables, disables, masks and presets systemd units in the root directory of an
--version => 0 clap unitroot 1 (rules 1, as systemctl 252; inventories 1, histories 1)
-V => 0 clap unitroot 1 (rules 1, as systemctl 252; inventories 1, histories 1)
enable | a | --version => 0 clap unitroot 1 (rules 1, as systemctl 252; inventories 1, histories 1)
mask | --help => 0 clap Links the units to /dev/null, so that they can't be started.
--root=/r | run | -h => 0 clap Runs a script: a call a line, as OPERATOR COMMAND WORDS... Without a file, or
enabel | a => 2 clap error: unrecognized subcommand 'enabel'
--root | /r | frobnicate => 2 clap error: unrecognized subcommand 'frobnicate'
ENABLE | a => 2 clap error: unrecognized subcommand 'ENABLE'
<> | a => 2 clap error: unrecognized subcommand ''
- | a => 2 clap error: unrecognized subcommand '-'
--frobnicate | enable | a => 2 clap error: unexpected argument '--frobnicate' found
enable | -Z | a => 2 clap error: unexpected argument '-Z' found
enable | a | --no => 2 clap error: unexpected argument '--no' found
enable => 2 clap error: the following required arguments were not provided:
add-wants | t => 2 clap error: the following required arguments were not provided:
place | /p => 2 clap error: the following required arguments were not provided:
set-default => 2 clap error: the following required arguments were not provided:
is-enabled => 2 clap error: the following required arguments were not provided:
undo => 2 clap error: the following required arguments were not provided:
show => 2 clap error: the following required arguments were not provided:
undo | --with-later => 2 clap error: the following required arguments were not provided:
redo | --dry-run => 2 clap error: the following required arguments were not provided:
undo | -1 => 2 clap error: unexpected argument '-1' found
show | 1 | 2 => 2 clap error: unexpected argument '2' found
log | 1 => 2 clap error: unexpected argument '1' found
log | -n => 2 clap error: a value is required for '--lines <N>' but none was supplied
log | --unit => 2 clap error: a value is required for '--unit <NAME>' but none was supplied
log | --since => 2 clap error: a value is required for '--since <TIME>' but none was supplied
capture | --max => 2 clap error: a value is required for '--max <MIB>' but none was supplied
undo | 1 | --with-later=2 => 2 clap error: unexpected value '2' for '--with-later' found; no more were expected
log | --help => 0 clap Shows the history, a row a line: its number and time, its operator and call,
show | -h => 0 clap Shows one row of the history: its run and its call, what that changed and looked
keep | a => 2 clap error: unexpected argument 'a' found
recover | 1 => 2 clap error: unexpected argument '1' found
forget | /h => 2 clap error: unexpected argument '/h' found
keep | --history => 2 clap error: a value is required for '--history <DIR>' but none was supplied
keep | --adopt=yes => 2 clap error: unexpected value 'yes' for '--adopt' found; no more were expected
--ro=/r | enable | a => 2 clap error: unexpected argument '--ro' found
recover | --help => 0 clap Finishes a run that was cut short, and does nothing else. The next run that
preset-all | a => 2 clap error: unexpected argument 'a' found
get-default | a => 2 clap error: unexpected argument 'a' found
set-default | a | b => 2 clap error: unexpected argument 'b' found
list-dependencies | a | b => 2 clap error: unexpected argument 'b' found
place | /p | file | a | b => 2 clap error: unexpected argument 'b' found
place | /p | pipe => 2 clap error: invalid value 'pipe' for '<link|file>'
run | a | b => 2 clap error: unexpected argument 'b' found
enable | a | --root => 2 clap error: a value is required for '--root <DIR>' but none was supplied
--quiet=yes | enable | a => 2 clap error: unexpected value 'yes' for '--quiet' found; no more were expected
-- | enabel | a => 2 clap error: unrecognized subcommand 'enabel'
-- | enable => 2 clap error: the following required arguments were not provided:

# Words that could be taken for something else: each arrives as one word, as it is.
mask | a.service b.service => mask <a.service b.service>
mask | <> | a => mask <> <a>
mask | \x20 | \n | a\nroot mask b | \t#\r => mask < > <\n> <a\nroot mask b> <\t#\r>
mask | # | # a | \\x41 | %i | $HOME | "a" | ' => mask <#> <# a> <\\x41> <%i> <$HOME> <"a"> <'>
mask | \x1b[31m | \x00 | \x7f | \xc3\xa9 | \xef\xbf\xbd => mask <\x1b[31m> <\x00> <\x7f> <\xc3\xa9> <\xef\xbf\xbd>
mask | -- | -a | --root=/x | -- | - => mask <-a> <--root=/x> <--> <->
mask | a | -- | --now => mask <a> <--now>
--root=/r | mask | -q | -- | -q => root=</r> quiet bare mask <-q>
mask | - => mask <->
-- | mask | a => mask <a>
--root=/r | -q | -- | mask | -q | -- | b => root=</r> quiet bare mask <-q> <--> <b>
-- | get-default => get-default
-- | -- | mask => 2 clap error: unrecognized subcommand '--'
-- | start | a => 2 start works on a running machine; unitroot changes files alone
mask | enable | mask | help => mask <enable> <mask> <help>
mask | a=b | = | a,b => mask <a=b> <=> <a,b>
--root=-x | mask | a => root=<-x> mask <a>
--root== | mask | a => root=<=> mask <a>
--root | enable | mask | a => root=<enable> mask <a>
--as | a\nroot mask b | mask | a => as=<a\nroot mask b> mask <a>
--as=-- - | mask | a => as=<-- -> mask <a>
--with= | --with=a,b | mask | a => with <> <a,b> mask <a>
set-default | <> => set-default <>
remove | -- | --help => remove <--help>
place | /p | file | a\nb # \t => place </p> <file> <a\nb # \t>
place | /p | file | <> => place </p> <file> <>
place | /p | link | -- | -t => place </p> <link> <-t>
place | <> | link | <> => place <> <link> <>
add-wants | <> | <> => <> wants <>
list-dependencies | <> => dependencies <>
run | <> => file=<> run
run | -- | -x => file=<-x> run
--history=-- - | keep => history=<-- -> keep
--history | keep | forget => history=<keep> forget
list-unit-files | [!a]* | <> | -- | -t => list <[!a]*> <> <-t> types states
"#;
