//! Sessions that are replayed: each input with its whole output.
use super::expect;

// Sessions of local transactions at one site.
pub(super) const LOCAL: [(&str, &str); 18] = [
    // No input is a session.
    ("", "order\nforgotten\nend\n"),
    // One transaction reads and writes.
    (
        "site 1 locking nothing\nlocal 1 1 get:5 add:5:0:7\ncommands\nbegin 1\nstep 1\nstep 1\ncommit 1\n",
        "begin 1 => begun 1.0\nstep 1 => read 5 0\nstep 1 => wrote 5 7\ncommit 1 => committed 1.0 number 2\norder 1.0\nreads 1.0 0\nforgotten\ntable 1 5=7\nend\n",
    ),
    // The younger dies.
    (
        "site 1 locking abort\nlocal 1 1 set:5:1\nlocal 2 1 set:5:2\ncommands\nbegin 1\nbegin 2\nstep 1\nstep 2\nbegin 2\ncommit 1\nstep 2\ncommit 2\n",
        "begin 1 => begun 1.0\nbegin 2 => begun 2.0\nstep 1 => wrote 5 1\nstep 2 => dies 1.0\nbegin 2 => begun 2.1\ncommit 1 => committed 1.0 number 4\nstep 2 => wrote 5 2\ncommit 2 => committed 2.1 number 5\norder 1.0 2.1\nreads 1.0\nreads 2.1\nforgotten\ntable 1 5=2\nend\n",
    ),
    // The older waits.
    (
        "site 1 locking abort\nlocal 1 1 set:5:1\nlocal 2 1 set:5:2\ncommands\nbegin 1\nbegin 2\nstep 2\nstep 1\ncommit 2\nstep 1\ncommit 1\n",
        "begin 1 => begun 1.0\nbegin 2 => begun 2.0\nstep 2 => wrote 5 2\nstep 1 => waits 2.0\ncommit 2 => committed 2.0 number 3\nstep 1 => wrote 5 1\ncommit 1 => committed 1.0 number 4\norder 2.0 1.0\nreads 2.0\nreads 1.0\nforgotten\ntable 1 5=1\nend\n",
    ),
    // In timestamp order an old one is late.
    (
        "site 1 timestamp nothing\nlocal 1 1 get:5\nlocal 2 1 set:5:9\nlocal 3 1 get:5\ncommands\nbegin 1\nbegin 2\nbegin 3\nstep 2\nstep 3\nstep 1\ncommit 2\nstep 3\ncommit 3\nbegin 1\nstep 1\ncommit 1\n",
        "begin 1 => begun 1.0\nbegin 2 => begun 2.0\nbegin 3 => begun 3.0\nstep 2 => wrote 5 9\nstep 3 => waits 2.0\nstep 1 => late 2.0\ncommit 2 => committed 2.0 number 2\nstep 3 => read 5 9\ncommit 3 => committed 3.0 number 3\nbegin 1 => begun 1.1\nstep 1 => read 5 9\ncommit 1 => committed 1.1 number 4\norder 2.0 3.0 1.1\nreads 2.0\nreads 3.0 9\nreads 1.1 9\nforgotten\ntable 1 5=9\nend\n",
    ),
    // At validation a stale read is invalid.
    (
        "site 1 validation abort\nlocal 1 1 get:5 set:6:1\nlocal 2 1 set:5:9\ncommands\nbegin 1\nbegin 2\nstep 1\nstep 2\ncommit 2\nstep 1\ncommit 1\n",
        "begin 1 => begun 1.0\nbegin 2 => begun 2.0\nstep 1 => read 5 0\nstep 2 => wrote 5 9\ncommit 2 => committed 2.0 number 3\nstep 1 => wrote 6 1\ncommit 1 => invalid 2.0 5\norder 2.0\nreads 2.0\nforgotten\ntable 1 5=9\nend\n",
    ),
    // With versions an old reader reads what stood before.
    (
        "site 1 multiversion nothing\nlocal 1 1 get:5\nlocal 2 1 set:5:9\nlocal 3 1 get:5\ncommands\nbegin 1\nbegin 2\nbegin 3\nstep 2\nstep 3\nstep 1\ncommit 2\nstep 3\ncommit 3\ncommit 1\n",
        "begin 1 => begun 1.0\nbegin 2 => begun 2.0\nbegin 3 => begun 3.0\nstep 2 => wrote 5 9\nstep 3 => waits 2.0\nstep 1 => read 5 0\ncommit 2 => committed 2.0 number 2\nstep 3 => read 5 9\ncommit 3 => committed 3.0 number 3\ncommit 1 => committed 1.0 number 1\norder 1.0 2.0 3.0\nreads 1.0 0\nreads 2.0\nreads 3.0 9\nforgotten\ntable 1 5=9\nend\n",
    ),
    // What a checkpoint trims is reported.
    (
        "site 1 locking abort\nlocal 1 1 set:5:1\nlocal 2 1 set:6:2\ncommands\nbegin 2\nstep 2\ncommit 2\ncheck 1\nbegin 1\nstep 1\ncommit 1\n",
        "begin 2 => begun 2.0\nstep 2 => wrote 6 2\ncommit 2 => committed 2.0 number 2\ncheck 1 => checked\nbegin 1 => begun 1.0\nstep 1 => wrote 5 1\ncommit 1 => committed 1.0 number 4\norder 2.0 1.0\nreads 2.0\nreads 1.0\nforgotten\ntable 1 5=1 6=2\nend\n",
    ),
    // Closing aborts what is live.
    (
        "site 1 locking nothing\nitem 1 9 3\nlocal 1 1 set:5:1\ncommands\nbegin 1\nstep 1\n",
        "begin 1 => begun 1.0\nstep 1 => wrote 5 1\nabort 1 => aborted 1.0\norder\nforgotten\ntable 1 9=3\nend\n",
    ),
    // An undeclared transaction is none.
    (
        "commands\nbegin 7\n",
        "begin 7 => none\norder\nforgotten\nend\n",
    ),
    // A Checkpoint.
    (
        "site 1 locking nothing\nitem 1 5 100\nlocal 1 1 get:5 add:5:0:1\nlocal 2 1 get:5 add:5:0:1\ncommands\nbegin 1\nstep 1\nstep 1\ncommit 1\ncheck 1\nhalt 1 0\nback 1\nfate 1\nbegin 2\nstep 2\nstep 2\ncommit 2\n",
        "begin 1 => begun 1.0\nstep 1 => read 5 100\nstep 1 => wrote 5 101\ncommit 1 => committed 1.0 number 2\ncheck 1 => checked\nhalt 1 0 => stopped kept 1\nback 1 => up epoch 2 doubtful 0\nfate 1 => committed 1.0\nbegin 2 => begun 2.0\nstep 2 => read 5 101\nstep 2 => wrote 5 102\ncommit 2 => committed 2.0 number 4\norder 1.0 2.0\nreads 1.0 100\nreads 2.0 101\nforgotten\ntable 1 5=102\nend\n",
    ),
    // A commit that a stop cuts.
    (
        "site 1 locking abort\nlocal 1 1 set:5:1\ncommands\nbegin 1\nstep 1\ntrip 1 1 10\ncommit 1\nback 1\nfate 1\nbegin 1\nstep 1\ncommit 1\n",
        "begin 1 => begun 1.0\nstep 1 => wrote 5 1\ntrip 1 1 10 => set\ncommit 1 => stopped kept 2\nback 1 => up epoch 2 doubtful 0\nfate 1 => aborted\nbegin 1 => begun 1.1\nstep 1 => wrote 5 1\ncommit 1 => committed 1.1 number 2\norder 1.1\nreads 1.1\nforgotten\ntable 1 5=1\nend\n",
    ),
    // A reader among versions.
    (
        "site 1 multiversion nothing\nitem 1 5 100\nlocal 1 1 get:4 get:5\nlocal 2 1 set:5:200\nlocal 3 1 get:5\ncommands\nbegin 1\nstep 1\nbegin 2\nstep 2\ncommit 2\nstep 1\nbegin 3\nstep 3\ncommit 3\ncommit 1\n",
        "begin 1 => begun 1.0\nstep 1 => read 4 0\nbegin 2 => begun 2.0\nstep 2 => wrote 5 200\ncommit 2 => committed 2.0 number 2\nstep 1 => read 5 100\nbegin 3 => begun 3.0\nstep 3 => read 5 200\ncommit 3 => committed 3.0 number 3\ncommit 1 => committed 1.0 number 1\norder 1.0 2.0 3.0\nreads 1.0 0 100\nreads 2.0\nreads 3.0 200\nforgotten\ntable 1 5=200\nend\n",
    ),
    // A commit that a stop keeps.
    (
        "site 1 locking abort\nlocal 1 1 set:5:1\ncommands\nbegin 1\nstep 1\ntrip 1 1 65535\ncommit 1\nbegin 1\nback 1\nfate 1\nbegin 1\n",
        "begin 1 => begun 1.0\nstep 1 => wrote 5 1\ntrip 1 1 65535 => set\ncommit 1 => stopped kept 3\nbegin 1 => down\nback 1 => up epoch 2 doubtful 0\nfate 1 => committed 1.0\nbegin 1 => committed 1.0\norder 1.0\nreads 1.0\nforgotten\ntable 1 5=1\nend\n",
    ),
    // Too late in timestamp order.
    (
        "site 1 timestamp abort\nitem 1 5 100\nlocal 1 1 set:5:1\nlocal 2 1 get:5\ncommands\nbegin 1\nbegin 2\nstep 2\nstep 1\ncommit 2\nbegin 1\nstep 1\ncommit 1\n",
        "begin 1 => begun 1.0\nbegin 2 => begun 2.0\nstep 2 => read 5 100\nstep 1 => late 2.0\ncommit 2 => committed 2.0 number 2\nbegin 1 => begun 1.1\nstep 1 => wrote 5 1\ncommit 1 => committed 1.1 number 3\norder 2.0 1.1\nreads 2.0 100\nreads 1.1\nforgotten\ntable 1 5=1\nend\n",
    ),
    // A transfer within a site.
    (
        "site 1 locking abort\nitem 1 10 500\nitem 1 20 40\nlocal 1 1 get:10 add:10:0:18446744073709551516 get:20 add:20:1:100\nlocal 2 1 get:10 get:20\ncommands\nbegin 1\nbegin 2\nstep 1\nstep 1\nstep 2\nstep 1\nstep 1\ncommit 1\nbegin 2\nstep 2\nstep 2\ncommit 2\n",
        "begin 1 => begun 1.0\nbegin 2 => begun 2.0\nstep 1 => read 10 500\nstep 1 => wrote 10 400\nstep 2 => dies 1.0\nstep 1 => read 20 40\nstep 1 => wrote 20 140\ncommit 1 => committed 1.0 number 3\nbegin 2 => begun 2.1\nstep 2 => read 10 400\nstep 2 => read 20 140\ncommit 2 => committed 2.1 number 5\norder 1.0 2.1\nreads 1.0 500 40\nreads 2.1 400 140\nforgotten\ntable 1 10=400 20=140\nend\n",
    ),
    // A refused validation.
    (
        "site 1 validation commit\nitem 1 5 100\nlocal 1 1 get:5 add:6:0:1\nlocal 2 1 set:5:200\ncommands\nbegin 1\nstep 1\nbegin 2\nstep 2\ncommit 2\nstep 1\ncommit 1\nbegin 1\nstep 1\nstep 1\ncommit 1\n",
        "begin 1 => begun 1.0\nstep 1 => read 5 100\nbegin 2 => begun 2.0\nstep 2 => wrote 5 200\ncommit 2 => committed 2.0 number 3\nstep 1 => wrote 6 101\ncommit 1 => invalid 2.0 5\nbegin 1 => begun 1.1\nstep 1 => read 5 200\nstep 1 => wrote 6 201\ncommit 1 => committed 1.1 number 5\norder 2.0 1.1\nreads 2.0\nreads 1.1 200\nforgotten\ntable 1 5=200 6=201\nend\n",
    ),
    // Wait-die.
    (
        "site 1 locking abort\nlocal 1 1 set:5:1\nlocal 2 1 set:5:2\nlocal 3 1 set:5:3\ncommands\nbegin 1\nbegin 2\nbegin 3\nstep 2\nstep 1\nstep 3\ncommit 2\nstep 1\ncommit 1\nbegin 3\nstep 3\ncommit 3\n",
        "begin 1 => begun 1.0\nbegin 2 => begun 2.0\nbegin 3 => begun 3.0\nstep 2 => wrote 5 2\nstep 1 => waits 2.0\nstep 3 => dies 2.0\ncommit 2 => committed 2.0 number 4\nstep 1 => wrote 5 1\ncommit 1 => committed 1.0 number 5\nbegin 3 => begun 3.1\nstep 3 => wrote 5 3\ncommit 3 => committed 3.1 number 7\norder 2.0 1.0 3.1\nreads 2.0\nreads 1.0\nreads 3.1\nforgotten\ntable 1 5=3\nend\n",
    ),
];

// A transfer between two sites, with an audit at each.
pub(super) const TRANSFER: (&str, &str) = (
    "site 1 locking abort\nsite 2 validation commit\nitem 1 10 500\nitem 2 20 40\nglobal 1 1/get:10 1/add:10:0:18446744073709551516 2/get:20 2/add:20:1:100\nlocal 2 1 get:10\nlocal 3 2 get:20\ncommands\ngo 1\ngive 1 0\ntake 1 0\ngive 1 1\ntake 1 1\ngive 1 2\ntake 1 2\ngive 1 3\ntake 1 3\ngive 2 0\ntake 2 0\ngive 2 1\ntake 2 1\ngive 2 2\ntake 2 2\ngive 2 3\ntake 2 3\ngive 1 4\ntake 1 4\ngive 2 4\nbegin 2\nstep 2\ncommit 2\nbegin 3\nstep 3\ncommit 3\n",
    "go 1 => begun 1.0 sends 1/0\ngive 1 0 => did 1.0 value 500 sends 0\ntake 1 0 => sends 1/1\ngive 1 1 => did 1.0 done sends 1\ntake 1 1 => sends 1/2 2/0\ngive 1 2 => did 1.0 ticket 1 sends 2\ntake 1 2 => initiates sends 1/3\ngive 1 3 => votes 1.0 yes 1 sends 3\ntake 1 3 => voted\ngive 2 0 => did 1.0 value 40 sends 0\ntake 2 0 => sends 2/1\ngive 2 1 => did 1.0 done sends 1\ntake 2 1 => sends 2/2\ngive 2 2 => did 1.0 ticket 1 sends 2\ntake 2 2 => sends 2/3\ngive 2 3 => votes 1.0 yes 1 sends 3\ntake 2 3 => decides commit sends 1/4 2/4\ngive 1 4 => settles 1.0 commit sends 4\ntake 1 4 => forgets\ngive 2 4 => settles 1.0 commit\nbegin 2 => begun 2.0\nstep 2 => read 10 400\ncommit 2 => committed 2.0 number 4\nbegin 3 => begun 3.0\nstep 3 => read 20 140\ncommit 3 => committed 3.0 number 4\norder 1.0 2.0 3.0\nreads 1.0 500 40\nreads 2.0 400\nreads 3.0 140\noutcome 1.0 commit\nforgotten 1.0\ntable 1 10=400\ntable 2 20=140\nend\n",
);

// Three presumptions: the site that presumes commit loses its unforced record, and is answered by its presumption.
pub(super) const PRESUMPTIONS: (&str, &str) = (
    "site 1 locking nothing\nsite 2 timestamp abort\nsite 3 validation commit\nglobal 1 1/set:1:11 2/set:2:22 3/set:3:33\ncommands\ngo 1\ngive 1 0\ntake 1 0\ngive 1 1\ntake 1 1\ngive 1 2\ntake 1 2\ngive 2 0\ntake 2 0\ngive 2 1\ntake 2 1\ngive 2 2\ntake 2 2\ngive 3 0\ntake 3 0\ngive 3 1\ntake 3 1\ngive 3 2\ntake 3 2\ngive 3 3\ngive 1 3\ntake 1 3\ngive 2 3\ntake 2 3\nhalt 3 0\nback 3\nask 3 1.0\ntake 3 3\ngive 3 4\n",
    "go 1 => begun 1.0 sends 1/0\ngive 1 0 => did 1.0 done sends 0\ntake 1 0 => sends 1/1 2/0\ngive 1 1 => did 1.0 ticket 1 sends 1\ntake 1 1 => initiates sends 1/2\ngive 1 2 => votes 1.0 yes 1 sends 2\ntake 1 2 => voted\ngive 2 0 => did 1.0 done sends 0\ntake 2 0 => sends 2/1 3/0\ngive 2 1 => did 1.0 ticket 1 sends 1\ntake 2 1 => sends 2/2\ngive 2 2 => votes 1.0 yes 1 sends 2\ntake 2 2 => voted\ngive 3 0 => did 1.0 done sends 0\ntake 3 0 => sends 3/1\ngive 3 1 => did 1.0 ticket 1 sends 1\ntake 3 1 => sends 3/2\ngive 3 2 => votes 1.0 yes 1 sends 2\ntake 3 2 => decides commit sends 1/3 2/3 3/3\ngive 3 3 => settles 1.0 commit\ngive 1 3 => settles 1.0 commit sends 3\ntake 1 3 => acked\ngive 2 3 => settles 1.0 commit sends 3\ntake 2 3 => forgets\nhalt 3 0 => stopped kept 3\nback 3 => up epoch 2 doubtful 1\nask 3 1.0 => asks 1.0 sends 3\ntake 3 3 => presumes commit sends 3/4\ngive 3 4 => settles 1.0 commit\norder 1.0\nreads 1.0\noutcome 1.0 commit\nforgotten 1.0\ntable 1 1=11\ntable 2 2=22\ntable 3 3=33\nend\n",
);

// Sessions of several sites and the coordinator.
pub(super) const FEDERATED: [(&str, &str); 8] = [
    TRANSFER,
    PRESUMPTIONS,
    // Crossing tickets of two globals: the second one is refused by the graph.
    (
        "site 1 validation nothing\nsite 2 validation nothing\nglobal 1 1/get:1 2/set:2:5\nglobal 2 2/get:2 1/set:1:7\ncommands\ngo 1\ngo 2\ngive 1 0\ntake 1 0\ngive 2 0\ntake 2 0\ngive 1 1\ntake 1 1\ngive 1 3\ntake 1 2\ngive 2 2\ntake 2 1\ngive 2 3\ntake 2 2\ngive 1 2\ntake 1 3\ngive 1 4\ntake 1 4\ngive 1 5\ngive 2 1\ntake 2 3\ngive 2 4\ntake 2 4\ngive 2 5\ntake 2 5\ntake 1 5\n",
        "go 1 => begun 1.0 sends 1/0\ngo 2 => begun 2.0 sends 2/0\ngive 1 0 => did 1.0 value 0 sends 0\ntake 1 0 => sends 1/1 2/1\ngive 2 0 => did 2.0 value 0 sends 0\ntake 2 0 => sends 1/2 2/2\ngive 1 1 => did 1.0 ticket 1 sends 1\ntake 1 1 => sends 1/3\ngive 1 3 => votes 1.0 yes 1 sends 2\ntake 1 2 => voted\ngive 2 2 => did 2.0 ticket 1 sends 1\ntake 2 1 => sends 2/3\ngive 2 3 => votes 2.0 yes 1 sends 2\ntake 2 2 => voted\ngive 1 2 => did 2.0 done sends 3\ntake 1 3 => sends 1/4\ngive 1 4 => did 2.0 ticket 2 sends 4\ntake 1 4 => sends 1/5\ngive 1 5 => votes 2.0 yes 2 sends 5\ngive 2 1 => did 1.0 done sends 3\ntake 2 3 => sends 2/4\ngive 2 4 => did 1.0 ticket 2 sends 4\ntake 2 4 => sends 2/5\ngive 2 5 => votes 1.0 yes 2 sends 5\ntake 2 5 => decides commit sends 1/6 2/6\ntake 1 5 => decides abort cycle 2.0>1.0@2 1.0>2.0@1 sends 1/7 2/7\nagain 1.0 => sends 1/8 2/8\ngive 1 8 => settles 1.0 commit sends 6\ntake 1 6 => acked\ngive 2 8 => settles 1.0 commit sends 6\ntake 2 6 => forgets\nagain 2.0 => sends 1/9 2/9\ngive 1 9 => settles 2.0 abort sends 7\ntake 1 7 => acked\ngive 2 9 => settles 2.0 abort sends 7\ntake 2 7 => forgets\norder 1.0\nreads 1.0 0\noutcome 1.0 commit\noutcome 2.0 abort\nforgotten 1.0 2.0\ntable 1\ntable 2 2=5\nend\n",
    ),
    // A cycle through locals of two globals without a common key.
    (
        "site 1 validation nothing\nsite 2 validation nothing\nglobal 1 1/get:1 2/get:4\nglobal 2 2/get:2 1/get:3\nlocal 3 1 set:1:7 set:3:8\nlocal 4 2 set:2:9 set:4:6\ncommands\ngo 1\ngo 2\ngive 1 0\ntake 1 0\ngive 2 0\ntake 2 0\ngive 1 1\ntake 1 1\ngive 1 3\ntake 1 2\ngive 2 2\ntake 2 1\ngive 2 3\ntake 2 2\nbegin 3\nstep 3\nstep 3\ncommit 3\nbegin 4\nstep 4\nstep 4\ncommit 4\ngive 1 2\ntake 1 3\ngive 1 4\ntake 1 4\ngive 1 5\ngive 2 1\ntake 2 3\ngive 2 4\ntake 2 4\ngive 2 5\ntake 2 5\ntake 1 5\n",
        "go 1 => begun 1.0 sends 1/0\ngo 2 => begun 2.0 sends 2/0\ngive 1 0 => did 1.0 value 0 sends 0\ntake 1 0 => sends 1/1 2/1\ngive 2 0 => did 2.0 value 0 sends 0\ntake 2 0 => sends 1/2 2/2\ngive 1 1 => did 1.0 ticket 1 sends 1\ntake 1 1 => sends 1/3\ngive 1 3 => votes 1.0 yes 1 sends 2\ntake 1 2 => voted\ngive 2 2 => did 2.0 ticket 1 sends 1\ntake 2 1 => sends 2/3\ngive 2 3 => votes 2.0 yes 1 sends 2\ntake 2 2 => voted\nbegin 3 => begun 3.0\nstep 3 => wrote 1 7\nstep 3 => wrote 3 8\ncommit 3 => committed 3.0 number 4\nbegin 4 => begun 4.0\nstep 4 => wrote 2 9\nstep 4 => wrote 4 6\ncommit 4 => committed 4.0 number 4\ngive 1 2 => did 2.0 value 8 sends 3\ntake 1 3 => sends 1/4\ngive 1 4 => did 2.0 ticket 2 sends 4\ntake 1 4 => sends 1/5\ngive 1 5 => votes 2.0 yes 2 sends 5\ngive 2 1 => did 1.0 value 6 sends 3\ntake 2 3 => sends 2/4\ngive 2 4 => did 1.0 ticket 2 sends 4\ntake 2 4 => sends 2/5\ngive 2 5 => votes 1.0 yes 2 sends 5\ntake 2 5 => decides commit sends 1/6 2/6\ntake 1 5 => decides abort cycle 2.0>1.0@2 1.0>2.0@1 sends 1/7 2/7\nagain 1.0 => sends 1/8 2/8\ngive 1 8 => settles 1.0 commit sends 6\ntake 1 6 => acked\ngive 2 8 => settles 1.0 commit sends 6\ntake 2 6 => forgets\nagain 2.0 => sends 1/9 2/9\ngive 1 9 => settles 2.0 abort sends 7\ntake 1 7 => acked\ngive 2 9 => settles 2.0 abort sends 7\ntake 2 7 => forgets\norder 4.0 1.0 3.0\nreads 4.0\nreads 1.0 0 6\nreads 3.0\noutcome 1.0 commit\noutcome 2.0 abort\nforgotten 1.0 2.0\ntable 1 1=7 3=8\ntable 2 2=9 4=6\nend\n",
    ),
    // The coordinator stops between append and sync of a Commit record, which is kept.
    (
        "site 1 locking nothing\nsite 2 timestamp abort\nsite 3 validation commit\nglobal 1 1/set:1:11 2/set:2:22 3/set:3:33\ncommands\ngo 1\ngive 1 0\ntake 1 0\ngive 1 1\ntake 1 1\ngive 1 2\ntake 1 2\ngive 2 0\ntake 2 0\ngive 2 1\ntake 2 1\ngive 2 2\ntake 2 2\ngive 3 0\ntake 3 0\ngive 3 1\ntake 3 1\ngive 3 2\ntrip 0 1 65535\ntake 3 2\nback 0\n",
        "go 1 => begun 1.0 sends 1/0\ngive 1 0 => did 1.0 done sends 0\ntake 1 0 => sends 1/1 2/0\ngive 1 1 => did 1.0 ticket 1 sends 1\ntake 1 1 => initiates sends 1/2\ngive 1 2 => votes 1.0 yes 1 sends 2\ntake 1 2 => voted\ngive 2 0 => did 1.0 done sends 0\ntake 2 0 => sends 2/1 3/0\ngive 2 1 => did 1.0 ticket 1 sends 1\ntake 2 1 => sends 2/2\ngive 2 2 => votes 1.0 yes 1 sends 2\ntake 2 2 => voted\ngive 3 0 => did 1.0 done sends 0\ntake 3 0 => sends 3/1\ngive 3 1 => did 1.0 ticket 1 sends 1\ntake 3 1 => sends 3/2\ngive 3 2 => votes 1.0 yes 1 sends 2\ntrip 0 1 65535 => set\ntake 3 2 => stopped kept 2\nback 0 => up known 1\nagain 1.0 => sends 1/3 2/3\ngive 1 3 => settles 1.0 commit sends 3\ntake 1 3 => acked\ngive 2 3 => settles 1.0 commit sends 3\ntake 2 3 => forgets\nask 3 1.0 => asks 1.0 sends 3\ntake 3 3 => presumes commit sends 3/3\ngive 3 3 => settles 1.0 commit\norder 1.0\nreads 1.0\noutcome 1.0 commit\nforgotten 1.0\ntable 1 1=11\ntable 2 2=22\ntable 3 3=33\nend\n",
    ),
    // And which is lost.
    (
        "site 1 locking nothing\nsite 2 timestamp abort\nsite 3 validation commit\nglobal 1 1/set:1:11 2/set:2:22 3/set:3:33\ncommands\ngo 1\ngive 1 0\ntake 1 0\ngive 1 1\ntake 1 1\ngive 1 2\ntake 1 2\ngive 2 0\ntake 2 0\ngive 2 1\ntake 2 1\ngive 2 2\ntake 2 2\ngive 3 0\ntake 3 0\ngive 3 1\ntake 3 1\ngive 3 2\ntrip 0 1 35\ntake 3 2\nback 0\n",
        "go 1 => begun 1.0 sends 1/0\ngive 1 0 => did 1.0 done sends 0\ntake 1 0 => sends 1/1 2/0\ngive 1 1 => did 1.0 ticket 1 sends 1\ntake 1 1 => initiates sends 1/2\ngive 1 2 => votes 1.0 yes 1 sends 2\ntake 1 2 => voted\ngive 2 0 => did 1.0 done sends 0\ntake 2 0 => sends 2/1 3/0\ngive 2 1 => did 1.0 ticket 1 sends 1\ntake 2 1 => sends 2/2\ngive 2 2 => votes 1.0 yes 1 sends 2\ntake 2 2 => voted\ngive 3 0 => did 1.0 done sends 0\ntake 3 0 => sends 3/1\ngive 3 1 => did 1.0 ticket 1 sends 1\ntake 3 1 => sends 3/2\ngive 3 2 => votes 1.0 yes 1 sends 2\ntrip 0 1 35 => set\ntake 3 2 => stopped kept 1\nback 0 => up known 1\nagain 1.0 => sends 1/3 3/3\ngive 1 3 => settles 1.0 abort sends 3\ntake 1 3 => acked\ngive 3 3 => settles 1.0 abort sends 3\ntake 3 3 => forgets\nask 2 1.0 => asks 1.0 sends 3\ntake 2 3 => presumes abort sends 2/3\ngive 2 3 => settles 1.0 abort\norder\noutcome 1.0 abort\nforgotten 1.0\ntable 1\ntable 2\ntable 3\nend\n",
    ),
    // Old messages are answered, and change nothing.
    (
        "site 1 locking nothing\nsite 2 timestamp abort\nsite 3 validation commit\nglobal 1 1/set:1:11 2/set:2:22 3/set:3:33\ncommands\ngo 1\ngive 1 0\ntake 1 0\ngive 1 1\ntake 1 1\ngive 1 2\ntake 1 2\ngive 2 0\ntake 2 0\ngive 2 1\ntake 2 1\ngive 2 2\ntake 2 2\ngive 3 0\ntake 3 0\ngive 3 1\ntake 3 1\ngive 3 2\ntake 3 2\ngive 3 3\ngive 1 3\ntake 1 3\nask 2 1.0\ngive 2 3\ntake 2 4\ntake 2 3\ngive 2 4\ngive 1 0\ngive 1 2\ngive 1 3\ntake 1 4\ntake 1 5\nhalt 1 0\nback 1\ngive 1 0\ngive 1 1\ngive 1 2\n",
        "go 1 => begun 1.0 sends 1/0\ngive 1 0 => did 1.0 done sends 0\ntake 1 0 => sends 1/1 2/0\ngive 1 1 => did 1.0 ticket 1 sends 1\ntake 1 1 => initiates sends 1/2\ngive 1 2 => votes 1.0 yes 1 sends 2\ntake 1 2 => voted\ngive 2 0 => did 1.0 done sends 0\ntake 2 0 => sends 2/1 3/0\ngive 2 1 => did 1.0 ticket 1 sends 1\ntake 2 1 => sends 2/2\ngive 2 2 => votes 1.0 yes 1 sends 2\ntake 2 2 => voted\ngive 3 0 => did 1.0 done sends 0\ntake 3 0 => sends 3/1\ngive 3 1 => did 1.0 ticket 1 sends 1\ntake 3 1 => sends 3/2\ngive 3 2 => votes 1.0 yes 1 sends 2\ntake 3 2 => decides commit sends 1/3 2/3 3/3\ngive 3 3 => settles 1.0 commit\ngive 1 3 => settles 1.0 commit sends 3\ntake 1 3 => acked\nask 2 1.0 => asks 1.0 sends 3\ngive 2 3 => settles 1.0 commit sends 4\ntake 2 4 => forgets\ntake 2 3 => presumes abort sends 2/4\ngive 2 4 => unheld 1.0\ngive 1 0 => did 1.0 unknown sends 4\ngive 1 2 => votes 1.0 no unknown sends 5\ngive 1 3 => unheld 1.0 sends 6\ntake 1 4 => ignored\ntake 1 5 => ignored\nhalt 1 0 => stopped kept 4\nback 1 => up epoch 2 doubtful 0\ngive 1 0 => did 1.0 done sends 7\ngive 1 1 => did 1.0 unknown sends 8\ngive 1 2 => votes 1.0 no unknown sends 9\ndrop 1 1.0 => dropped 1.0\norder 1.0\nreads 1.0\noutcome 1.0 commit\nforgotten 1.0\ntable 1 1=11\ntable 2 2=22\ntable 3 3=33\nend\n",
    ),
    // An attempt that is given up, with a vote that comes too late.
    (
        "site 1 locking nothing\nsite 2 timestamp abort\nsite 3 validation commit\nglobal 1 1/set:1:11 2/set:2:22 3/set:3:33\ncommands\ngo 1\ngive 1 0\ntake 1 0\ngive 1 1\ntake 1 1\ngive 1 2\ntake 1 2\ngive 2 0\ntake 2 0\ngive 2 1\ntake 2 1\ngive 2 2\ntake 2 2\ngive 3 0\ntake 3 0\ngive 3 1\ntake 3 1\ngive 3 2\nlate 1.0\ngive 2 3\ngive 1 3\ntake 1 3\ngive 3 3\ntake 3 3\nhalt 2 0\nback 2\nask 2 1.0\ntake 2 3\ngive 2 4\ntake 3 2\n",
        "go 1 => begun 1.0 sends 1/0\ngive 1 0 => did 1.0 done sends 0\ntake 1 0 => sends 1/1 2/0\ngive 1 1 => did 1.0 ticket 1 sends 1\ntake 1 1 => initiates sends 1/2\ngive 1 2 => votes 1.0 yes 1 sends 2\ntake 1 2 => voted\ngive 2 0 => did 1.0 done sends 0\ntake 2 0 => sends 2/1 3/0\ngive 2 1 => did 1.0 ticket 1 sends 1\ntake 2 1 => sends 2/2\ngive 2 2 => votes 1.0 yes 1 sends 2\ntake 2 2 => voted\ngive 3 0 => did 1.0 done sends 0\ntake 3 0 => sends 3/1\ngive 3 1 => did 1.0 ticket 1 sends 1\ntake 3 1 => sends 3/2\ngive 3 2 => votes 1.0 yes 1 sends 2\nlate 1.0 => decides abort late sends 1/3 2/3 3/3\ngive 2 3 => settles 1.0 abort\ngive 1 3 => settles 1.0 abort sends 3\ntake 1 3 => acked\ngive 3 3 => settles 1.0 abort sends 3\ntake 3 3 => forgets\nhalt 2 0 => stopped kept 3\nback 2 => up epoch 2 doubtful 1\nask 2 1.0 => asks 1.0 sends 3\ntake 2 3 => presumes abort sends 2/4\ngive 2 4 => settles 1.0 abort\ntake 3 2 => ignored\norder\noutcome 1.0 abort\nforgotten 1.0\ntable 1\ntable 2\ntable 3\nend\n",
    ),
];

#[test]
fn sessions_of_one_site_are_replayed(rt: HostRuntime) {
    for (input, output) in LOCAL.iter() {
        expect(&rt, input, 0, output);
    }
}

#[test]
fn sessions_of_a_federation_are_replayed(rt: HostRuntime) {
    for (input, output) in FEDERATED.iter() {
        expect(&rt, input, 0, output);
    }
}
