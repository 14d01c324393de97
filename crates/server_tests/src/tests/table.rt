//! Logs with servers, and what these answer, by hand from the rules.
//!
//! A block is a log, which begins with a lease of node 1 at boot 1 to 1000, numbered 1, low water 0, and goes on
//! with the entries of the lines `+ ..`; then a server (node, boot, ordinary or global, entries applied); then
//! questions with their answers: the wall of the clock, the nodes that run (1 to 3 vote), the question, and behind
//! ` -> ` the reply, by what right a read was served, and behind `;` each entry that was appended. A lease lasts 100
//! from the clock, a transaction expires 50 after its start, a range closes 30 behind the clock, a global one leads
//! it by 8. A timestamp without dots is a wall that the attempt owns.

pub static TABLE: &str = "\
log holder serves below the end of its lease, and so its limit
+ load 0 a 5
server 1 1 ordinary 9
100 123 read 7 a-c 50 60 -> rows a y by lease
100 123 read 7 a-c 999 999 -> rows a y by lease
100 123 read 7 a-c 1000 1001 -> notholder 1
100 123 read 7 a-c 999 1000 -> notholder 1
100 123 read 7 a-c 999 1001 -> notholder 1
100 123 read 7 a-c 999 - -> rows a y by lease
100 123 read 7 a-c 3 4 -> rows by lease
100 123 read 7 a-c 3 5 -> uncertain a 5.0.0 by lease
100 123 read 7 b-c 50 60 -> rows by lease
100 123 refresh 7 a-c 50 60 -> refreshed by lease
100 123 refresh 7 a-c 3 60 -> newer 5.0.0 by lease
100 123 refresh 7 a-c 999 1000 -> notholder 1
100 - read 7 a-c 50 60 -> rows a y by lease
log at another boot only what was closed is served, until the lease is taken
+ load 0 a 5
+ close 40
server 1 2 ordinary 9
100 123 read 7 a-c 39 - -> rows a y by closure
100 123 read 7 a-c 40.0.0 - -> notholder 1
100 123 read 7 a-c 39 39 -> rows a y by closure
100 123 read 7 a-c 39 40 -> notholder 1
100 123 refresh 7 a-c 6 39 -> refreshed by closure
100 123 refresh 7 a-c 6 41 -> notholder 1
100 123 put 7 a 50 -> notholder 1
100 123 pushr 7 9 50 -> notholder 1
100 123 commit 7 50 -> notholder 1
100 123 resolve 7 a c50 -> none
100 123 extend -> notholder
100 123 close -> notholder
100 123 transfer 2 1 -> notholder
1000 123 acquire -> live 1000
1001 12 acquire -> done ; lease 2 1 2 1101 1000.0.0
1001 12 put 7 a 50 -> laid 1000.1.7 ; put 7 1000.1.7
1001 12 read 7 a-c 1100 1100 -> rows a y by lease
1001 12 read 8 a-c 1100 1101 -> notholder 2
log another node follows
+ load 0 a 5
+ close 40
server 2 1 ordinary 9
100 123 read 7 a-c 39 39 -> rows a y by closure
100 123 read 7 a-c 50 - -> notholder 1
100 123 abort 7 -> notholder 1
500 123 acquire -> live 1000
1200 23 acquire -> done ; lease 2 2 1 1300 1000.0.0
1200 23 transfer 3 4 -> done ; lease 3 3 4 1300 1000.0.0
1200 23 extend -> notholder
log a holder that doesn't know of the next lease
+ put 5 a 20
+ lease 2 2 1 1100 30
server 1 1 ordinary 2
100 123 read 7 b-c 50 60 -> rows by lease
100 123 put 7 b 50 -> notholder 1
100 123 put 7 a 50 -> intent a 5
100 123 put 7 a 50 5:c20 -> notholder 1
100 123 pushr 7 5 50 -> notholder 1
100 123 pushw 7 5 50 20 -> notholder 1
100 123 commit 5 20 -> notholder 1
100 123 abort 5 -> notholder 1
100 123 resolve 5 a c20 -> none
100 123 extend -> notholder
100 123 transfer 2 1 -> notholder
100 123 close -> notholder
100 123 acquire -> live 1100
log no majority runs
+ put 5 a 20
+ record 6 p30
server 1 1 ordinary 9
100 1 read 7 b-c 50 60 -> rows by lease
100 1 put 7 b 50 -> noquorum n2 n3
100 1 put 7 a 50 -> intent a 5
100 1 put 7 a 50 5:c20 -> noquorum n2 n3
100 14 pushr 7 5 50 -> noquorum n2 n3
100 1 commit 6 30 -> pushed 30.0.6
100 1 commit 6 31 -> noquorum n2 n3
100 3 abort 6 -> noquorum n1 n2
100 3 resolve 5 a c20 -> none
100 1 extend -> noquorum n2 n3
100 1 close -> noquorum n2 n3
100 3 transfer 2 1 -> noquorum n1 n2
100 3 transfer 4 1 -> notvoter
2000 3 acquire -> noquorum n1 n2
100 12 pushr 7 5 50 -> fate 5 pushed 50.0.7 ; record 5 pending 50.0.7
log a node that doesn't vote
server 4 1 ordinary 9
100 123 acquire -> notvoter
2000 123 acquire -> notvoter
100 123 read 7 a-c 50 60 -> notholder 1
log reads meet an intent with each kind of fate
+ load 0 a 5
+ put 5 b 20
server 1 1 ordinary 9
100 123 read 7 a-c 50 60 -> unknown b 5 by lease
100 123 read 7 a-c 15 16 -> rows a y by lease
100 123 read 7 a-c 15 20 -> unknown b 5 by lease
100 123 read 5 a-c 50 60 -> rows a y by lease
100 123 read 7 a-c 50 60 5:a -> rows a y by lease
100 123 read 7 a-c 50 60 5:c20 -> rows a y b x by lease
100 123 read 7 a-c 15 20 5:c20 -> uncertain b 20.0.5 by lease
100 123 read 7 a-c 50 60 5:p50 -> unknown b 5 by lease
100 123 read 7 a-c 50 60 5:p51 -> rows a y by lease
100 123 refresh 7 a-c 10 50 -> unknown b 5 by lease
100 123 refresh 7 a-c 10 50 5:c20 -> newer 20.0.5 by lease
100 123 refresh 7 a-c 10 50 5:a -> refreshed by lease
log a put meets an intent with each kind of fate
+ put 5 a 20
server 1 1 ordinary 9
100 123 put 7 a 50 -> intent a 5
100 123 put 7 a 50 5:p60 -> intent a 5
100 123 put 7 a 50 6:a -> intent a 5
100 123 put 7 a 50 5:c60 -> laid 60.1.7 ; resolve 5 a committed 60.0.5 ; put 7 60.1.7
100 123 put 7 a 70 -> laid 70.0.7 ; put 7 70.0.7
100 123 put 8 a 75 7:a -> laid 75.0.8 ; resolve 7 a aborted ; put 8 75.0.8
log puts are laid above reads, versions and what was closed
+ load 0 b 80
+ close 40
server 1 1 ordinary 9
100 123 put 7 a 50 -> laid 50.0.7 ; put 7 50.0.7
100 123 put 7 b 50 -> laid 80.1.7 ; put 7 80.1.7
100 123 put 9 f 35 -> laid 40.1.9 ; put 9 40.1.9
100 123 read 8 c-d 60 70 -> rows by lease
100 123 put 7 c 55 -> laid 60.1.7 ; put 7 60.1.7
100 123 put 7 d 55 -> laid 55.0.7 ; put 7 55.0.7
100 123 put 9 c 90 -> intent c 7
100 123 refresh 8 e-f 60 65 -> refreshed by lease
100 123 put 7 e 55 -> laid 65.1.7 ; put 7 65.1.7
log a global range leads the clock
server 1 1 global 9
100 123 put 7 a 50 -> laid 108.1.7 ; put 7 108.1.7
100 123 put 7 b 200 -> laid 200.0.7 ; put 7 200.0.7
100 123 put 8 c 108 -> laid 108.0.8 ; put 8 108.0.8
100 123 close -> done ; close 108.0.0
100 123 close -> nothing
101 123 close -> done ; close 109.0.0
100 123 put 7 e 50 -> laid 109.1.7 ; put 7 109.1.7
100 123 read 9 f-g 108 109 -> rows by lease
log an ordinary range closes behind the clock
server 1 1 ordinary 9
20 123 close -> nothing
100 12 close -> done ; close 70.0.0
100 12 close -> nothing
99 12 close -> nothing
log pushes
+ put 5 a 20
+ record 6 c30
+ record 8 a9
+ record 10 p60
+ record 11 p33
server 1 1 ordinary 9
100 123 pushr 7 6 50 -> fate 6 committed 30.0.6
100 1 pushr 7 8 50 -> fate 8 aborted
100 123 pushr 7 10 50 -> fate 10 pushed 60.0.10 ; record 10 pending 60.0.10
100 123 pushr 7 10 70 -> fate 10 pushed 70.0.7 ; record 10 pending 70.0.7
100 123 pushw 7 6 50 40 -> fate 6 committed 30.0.6
100 123 pushw 7 8 50 40 -> fate 8 aborted
90 123 pushw 7 5 50 40 -> live 5 ; record 5 pending 0.0.0
90 123 pushw 7 11 50 40 -> live 11 ; record 11 pending 33.0.11
91 123 pushw 7 5 50 40 -> fate 5 aborted ; record 5 aborted 7
90 123 pushw 7 10 40 40 -> fate 10 aborted ; record 10 aborted 7
90 123 pushw 7 10 30 40 -> fate 10 aborted
90 123 commit 10 80 -> aborted 7
90 123 pushr 7 12 50 -> fate 12 pushed 50.0.7 ; record 12 pending 50.0.7
log commits and aborts
+ record 6 p30
+ record 9 c40
server 1 1 ordinary 9
100 123 commit 6 29 -> pushed 30.0.6
100 123 commit 6 30 -> pushed 30.0.6
100 123 commit 6 31 -> ended ; record 6 committed 31.0.6
100 123 commit 6 32 -> ended
100 123 abort 6 -> ended
100 123 commit 7 50 -> ended ; record 7 committed 50.0.7
100 123 abort 8 -> ended ; record 8 aborted 8
100 123 abort 8 -> ended
100 123 commit 8 50 -> aborted 8
100 123 abort 9 -> ended
100 123 pushr 7 8 50 -> fate 8 aborted
log resolves
+ put 5 a 20
+ put 5 b 20
+ put 6 c 20
server 1 1 ordinary 9
100 123 resolve 5 abc c20 -> none ; resolve 5 a committed 20.0.5 ; resolve 5 b committed 20.0.5
100 123 resolve 5 abc c20 -> none
100 123 resolve 6 cac a -> none ; resolve 6 c aborted
100 123 read 7 a-d 50 60 -> rows a x b x by lease
log what was read goes with a transfer
server 1 1 ordinary 9
100 123 read 7 a-c 300 - -> rows by lease
100 123 transfer 2 1 -> done ; lease 2 2 1 200 300.0.7
100 123 put 7 a 50 -> notholder 2
100 123 read 7 a-c 50 60 -> notholder 2
log what was read stays with an extended lease
server 1 1 ordinary 9
100 123 read 7 a-c 300 - -> rows by lease
950 123 extend -> done ; lease 2 1 1 1050 0.0.0
100 123 extend -> done ; lease 3 1 1 1050 0.0.0
100 123 put 8 b 50 -> laid 300.1.8 ; put 8 300.1.8
100 123 put 8 c 50 -> laid 50.0.8 ; put 8 50.0.8
log a transfer to the holder itself begins anew
server 1 1 ordinary 9
100 123 read 7 a-c 300 - -> rows by lease
100 123 transfer 1 1 -> done ; lease 2 1 1 200 300.0.7
100 123 put 8 c 50 -> laid 300.1.8 ; put 8 300.1.8
log a restart forgets what was read with the lease
server 1 1 ordinary 9
100 123 read 7 a-c 300 - -> rows by lease
100 123 restart 2 -> restarted
100 123 read 7 a-c 300 - -> notholder 1
1001 123 acquire -> done ; lease 2 1 2 1101 1000.0.0
1001 123 put 8 a 50 -> laid 1000.1.8 ; put 8 1000.1.8
";
